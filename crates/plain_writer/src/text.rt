// The lines of a plan file.

// An area that is written from the front. Past its end nothing is stored.
#[derive(Drop)]
pub struct Writer<'a> {
    out: &'a mut [u8],
    at: usize,
}

impl<'a> Writer<'a> {
    pub fn new(out: &'a mut [u8]) -> Writer<'a> {
        Writer { out, at: 0 }
    }

    // How many bytes were written.
    pub fn at(&self) -> usize {
        self.at
    }

    fn put(&mut self, b: u8) {
        if let Some(place) = self.out.get_mut(self.at) {
            *place = b;
        }
        self.at = self.at.saturating_add(1);
    }

    pub fn put_all(&mut self, bytes: &[u8]) {
        for b in bytes {
            self.put(*b);
        }
    }

    // The last digit of a number.
    fn digit(&mut self, n: u32) {
        self.put((n % 10) as u8 + b'0');
    }

    // A number below 100.
    fn number(&mut self, n: u32) {
        if 10 <= n {
            self.digit(n / 10);
        }
        self.digit(n);
    }

    // A key, its value and the end of the line.
    pub fn line(&mut self, key: &[u8], n: u32) {
        self.put_all(key);
        self.number(n);
        self.put(b'\n');
    }

    pub fn node(&mut self, letter: u8, n: u32) {
        self.put_all(b"node=");
        self.put(letter);
        self.line(b",", n);
    }
}

// The lines of a file before the number of nodes, whose line is the first that begins with an n; it is not the file's
// first line.
pub fn head(file: &[u8]) -> &[u8] {
    match file.windows(2).position(|pair| pair == b"\nn".as_slice()) {
        Some(i) => &file[..=i],
        None => file,
    }
}
