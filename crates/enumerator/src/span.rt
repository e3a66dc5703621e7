// From when to when a session goes.
use crate::ABSENT;
use plain::{ACTS, Plan};

// The earliest start, the latest end, and the sum of the starts, which in units is the most ticks that it is tried on
// whether one of its activities can start sooner.
#[derive(Clone, Copy)]
pub struct Span {
    first: u32,
    last: u32,
    pub ticks: u32,
}

impl Span {
    pub fn new(p: &Plan, starts: &[u32; ACTS]) -> Span {
        let mut span = Span {
            first: u32::MAX,
            last: 0,
            ticks: 0,
        };
        for (start, activity) in starts.iter().zip(&p.activity) {
            if *start != ABSENT {
                span.first = span.first.min(*start);
                span.last = span.last.max(start.saturating_add(activity.duration));
                span.ticks = span.ticks.saturating_add(*start);
            }
        }
        span
    }

    pub fn makespan(&self) -> u32 {
        self.last.saturating_sub(self.first)
    }
}
