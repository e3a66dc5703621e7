// Whether CHECK's answers on a file are those of the plain test of a timetable.
use crate::agreement::{MOST, NO_SUCH_VARIANT, Numbered};
use crate::asked::Asked;
use crate::rows::{starts_of, variant_of, width};
use crate::timetables::{changes, in_line, room, shifted};
use enumerator::{ABSENT, Rules};
use plain::{ACTS, Plan};
use timetable::Timetable;

// A variant of a plan: its number and its rules.
#[derive(Clone, Copy)]
struct Case<'a> {
    number: u32,
    rules: Rules<'a>,
}

impl<'a> Case<'a> {
    fn is_session(&self, starts: [u32; ACTS]) -> bool {
        enumerator::is_session(&self.rules, &starts)
    }

    // One more timetable under the variant.
    fn compare(&self, file: &[u8], starts: [u32; ACTS], asked: &mut Asked) {
        let is_session = self.is_session(starts);
        let answer = inspect::check(file, self.number, Timetable { starts });
        asked.add_timetable(is_session, answer == Ok(is_session));
    }

    // The session with one start changed. One change is enough where the plan has no such activity.
    fn compare_changes(&self, file: &[u8], starts: [u32; ACTS], asked: &mut Asked) {
        for i in 0..ACTS {
            let count = if i < self.rules.plan.acts { 4 } else { 1 };
            for start in changes(starts[i]).iter().take(count) {
                let mut changed = starts;
                changed[i] = *start;
                self.compare(file, changed, asked);
            }
        }
    }

    // A session of the variant: as it is, a tick later as a whole, as late as can be, and with one start changed.
    fn compare_session(&self, file: &[u8], starts: [u32; ACTS], asked: &mut Asked) {
        asked.add_test(self.is_session(starts));
        self.compare(file, starts, asked);
        self.compare(file, shifted(starts, 1), asked);
        self.compare(file, shifted(starts, room(starts)), asked);
        self.compare_changes(file, starts, asked);
    }

    // Each row: a session of its own variant, any timetable under another.
    fn compare_rows(&self, file: &[u8], rows: &[u32], asked: &mut Asked) {
        for row in rows.chunks_exact(width(self.rules.plan.acts)) {
            let starts = starts_of(row);
            if variant_of(row) == self.number {
                self.compare_session(file, starts, asked);
            } else {
                self.compare(file, starts, asked);
            }
        }
    }
}

fn refuses(file: &[u8], v: u32, starts: [u32; ACTS], own: Numbered) -> bool {
    match inspect::check(file, v, Timetable { starts }) {
        Ok(_) => false,
        Err(refusal) => Numbered::of(refusal) == own,
    }
}

// Every row that the enumerator found, under every variant and the first number past them.
pub fn compare_rows(file: &[u8], p: &Plan, variants: u32, rows: &[u32], asked: &mut Asked) {
    let first = rows.get(..width(p.acts)).unwrap_or(&[]);
    asked.add_test(refuses(file, variants, starts_of(first), NO_SUCH_VARIANT));
    for (number, chosen) in (0..variants).zip(p.variants()) {
        let rules = enumerator::rules_of(p, &chosen);
        Case { number, rules }.compare_rows(file, rows, asked);
    }
}

// A session of the first variant, with its activities one after the other, and the first number past the variants.
pub fn compare_first(file: &[u8], p: &Plan, variants: u32, asked: &mut Asked) {
    asked.add_test(refuses(file, variants, [ABSENT; ACTS], NO_SUCH_VARIANT));
    if let Some(chosen) = p.variants().next() {
        let rules = enumerator::rules_of(p, &chosen);
        Case { number: 0, rules }.compare_session(file, in_line(p, &chosen), asked);
    }
}

// The refusal of a file that is not accepted, whatever the number.
pub fn compare_refused(file: &[u8], own: Numbered, asked: &mut Asked) {
    let empty = [ABSENT; ACTS];
    asked.add_test(refuses(file, 0, empty, own) && refuses(file, MOST, empty, own));
}
