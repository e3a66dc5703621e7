// The lines of a plan file.
ghost use Rattle.std.specs.Prelude.{◌≤◌, length};
ghost use Rattle.generator.specs.Text.{Counts};

use crate::tree::Kind;

// An area that is written from a place on. What does not fit is left out.
#[derive(Drop)]
pub struct Writer<'a> {
    out: &'a mut [u8],
    at: usize,
    ghost held: { at ≤ length out.now },
}

impl<'a> Writer<'a> {
    pub fn new(out: &'a mut [u8], at: usize) -> Writer<'a> {
        let at = at.min(out.len());
        Writer { out, at }
    }

    // The place behind what was written.
    pub fn at(&self) -> usize
        ensures { Counts result self.now.out.now }
    {
        self.at
    }

    pub fn put(&mut self, b: u8) {
        if let Some(place) = self.out.get_mut(self.at) {
            *place = b;
            self.at += 1;
        }
    }

    fn put_all(&mut self, bytes: &[u8]) {
        for b in bytes {
            self.put(*b);
        }
    }

    // The last digit of a number.
    fn digit(&mut self, n: u32) {
        self.put((n % 10) as u8 + b'0');
    }

    // The last digit of a number, of 0 none.
    fn leading_digit(&mut self, n: u32) {
        if n != 0 {
            self.digit(n);
        }
    }

    // A number below 100000.
    fn number(&mut self, n: u32) {
        self.leading_digit(n / 10000);
        self.leading_digit(n / 1000);
        self.leading_digit(n / 100);
        self.leading_digit(n / 10);
        self.digit(n);
    }

    // A key and its value.
    pub fn value(&mut self, key: &[u8], n: u32) {
        self.put_all(key);
        self.number(n);
    }

    // A key, its value and the end of the line.
    pub fn line(&mut self, key: &[u8], n: u32) {
        self.value(key, n);
        self.put(b'\n');
    }

    // The line of an activity in edition 1.
    pub fn activity(&mut self, resource: u8, duration: u32) {
        self.value(b"act=", u32::from(resource));
        self.line(b",", duration);
    }

    pub fn node(&mut self, kind: Kind, n: u8) {
        self.put_all(b"node=");
        self.put(kind.letter());
        self.line(b",", u32::from(n));
    }
}

// A position, or the end of the area where that comes first.
pub fn within(out: &mut [u8], at: usize) -> usize
    ensures { Counts result out.new }
{
    at.min(out.len())
}
