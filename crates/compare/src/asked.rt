use std::io::Write;

// What WRITE and CHECK were asked: whether each answer was that of the plain side, how many variants were written out,
// and how many timetables are sessions and how many are not.
#[derive(Clone, Copy)]
pub struct Asked {
    pub same: bool,
    pub variants: u64,
    pub yes: u64,
    pub no: u64,
}

impl Asked {
    pub fn none() -> Asked {
        Asked {
            same: true,
            variants: 0,
            yes: 0,
            no: 0,
        }
    }

    // One more test, which only says whether the two agree.
    pub fn add_test(&mut self, is_same: bool) {
        self.same &= is_same;
    }

    pub fn add_variant(&mut self, is_same: bool) {
        self.same &= is_same;
        self.variants = self.variants.wrapping_add(1);
    }

    pub fn add_timetable(&mut self, is_session: bool, is_same: bool) {
        self.same &= is_same;
        if is_session {
            self.yes = self.yes.wrapping_add(1);
        } else {
            self.no = self.no.wrapping_add(1);
        }
    }

    pub fn add(&mut self, other: Asked) {
        self.same &= other.same;
        self.variants = self.variants.wrapping_add(other.variants);
        self.yes = self.yes.wrapping_add(other.yes);
        self.no = self.no.wrapping_add(other.no);
    }
}

pub fn put<W: Write>(out: &mut W, asked: Asked) {
    let _ = writeln!(out, "written variants={}", asked.variants);
    let _ = writeln!(out, "checked yes={}", asked.yes);
    let _ = writeln!(out, "checked no={}", asked.no);
}
