// The lines of a plan file, read from the front, with the refusal of a line that is not of its form.
use crate::RESOURCES;
use crate::refusal::Refusal;
use crate::tables::Kind;

// The most values of a line: a duration, and a count for each resource.
pub const VALUES: usize = 1 + RESOURCES;

// What is left of a file, and the number of the line that was read last.
#[derive(Drop)]
pub struct Lines<'a> {
    rest: &'a [u8],
    line: u64,
}

impl<'a> Lines<'a> {
    pub fn new(file: &'a [u8]) -> Lines<'a> {
        Lines {
            rest: file,
            line: 0,
        }
    }

    pub fn line(&self) -> u64 {
        self.line
    }

    fn skip(&mut self, text: &[u8]) -> Option<()> {
        self.rest = self.rest.strip_prefix(text)?;
        Some(())
    }

    fn letter(&mut self) -> Option<Kind> {
        let (letter, rest) = self.rest.split_first()?;
        self.rest = rest;
        Kind::of_letter(*letter)
    }

    fn digit(&mut self) -> Option<u32> {
        let (digit, rest) = self.rest.split_first()?;
        if !digit.is_ascii_digit() {
            return None;
        }
        self.rest = rest;
        Some(u32::from(*digit - b'0'))
    }

    // A value is one to five digits with no leading zero.
    fn value(&mut self) -> Option<u32> {
        let mut value = self.digit()?;
        if value == 0 {
            return Some(0);
        }
        for _ in 1..5 {
            let Some(digit) = self.digit() else {
                return Some(value);
            };
            value = value.checked_mul(10)?.checked_add(digit)?;
        }
        Some(value)
    }

    fn values(&mut self, key: &[u8], count: usize) -> Option<[u32; VALUES]> {
        self.skip(key)?;
        let mut values = [0; VALUES];
        for (i, value) in values.iter_mut().take(count).enumerate() {
            if i != 0 {
                self.skip(b",")?;
            }
            *value = self.value()?;
        }
        self.skip(b"\n")?;
        Some(values)
    }

    fn kind_and_number(&mut self) -> Option<(Kind, u32)> {
        self.skip(b"node=")?;
        let kind = self.letter()?;
        self.skip(b",")?;
        let number = self.value()?;
        self.skip(b"\n")?;
        Some((kind, number))
    }

    // On to the next line.
    fn start(&mut self) -> Refusal {
        self.line = self.line.saturating_add(1);
        Refusal::Form { line: self.line }
    }

    // A line of so many values, with 0 behind them.
    pub fn listed(&mut self, key: &[u8], count: usize) -> Result<[u32; VALUES], Refusal> {
        let refusal = self.start();
        self.values(key, count).ok_or(refusal)
    }

    // A node's line.
    pub fn node(&mut self) -> Result<(Kind, u32), Refusal> {
        let refusal = self.start();
        self.kind_and_number().ok_or(refusal)
    }

    // The line after the last is no line: the file ends there.
    pub fn end(&mut self) -> Result<(), Refusal> {
        let refusal = self.start();
        if self.rest.is_empty() {
            Ok(())
        } else {
            Err(refusal)
        }
    }
}
