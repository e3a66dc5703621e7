// How many files the plain side could judge, on how many of them the two agree, and what WRITE and CHECK were asked.
use crate::asked::Asked;
use std::io::Write;

#[derive(Clone, Copy)]
pub struct Totals {
    known: u64,
    agree: u64,
    asked: Asked,
}

impl Totals {
    pub fn none() -> Totals {
        Totals {
            known: 0,
            agree: 0,
            asked: Asked::none(),
        }
    }

    // One more file that was compared.
    pub fn add(&mut self, agrees: bool, asked: Asked) {
        self.known = self.known.wrapping_add(1);
        if agrees {
            self.agree = self.agree.wrapping_add(1);
        }
        self.asked.add(asked);
    }

    pub fn put<W: Write>(&self, out: &mut W) {
        let _ = writeln!(out, "known={}", self.known);
        let _ = writeln!(out, "agree={}", self.agree);
        crate::asked::put(out, self.asked);
    }
}
