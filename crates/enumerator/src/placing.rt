// Every feasible session of a variant whose starts are multiples of its unit, at most the sum of its durations.
use crate::lower::is_active_below;
use crate::rows::Rows;
use crate::rules::Rules;
use crate::session::Session;
use crate::span::Span;
use crate::unit::{multiples, unit};
use crate::{ABSENT, Enumerated};
use plain::{ACTS, Plan, Variant};

// A search ends when it has tried about this many starts, not counting those for lower variants.
const LIMIT: u32 = 1000000000;

// A variant: its number, its rules and its unit.
#[derive(Drop)]
pub struct Case<'a> {
    number: u32,
    rules: Rules<'a>,
    unit: u32,
}

impl<'a> Case<'a> {
    pub fn new(plan: &'a Plan, variant: &'a Variant, number: u32) -> Case<'a> {
        Case {
            number,
            rules: Rules::new(plan, variant),
            unit: unit(plan, variant),
        }
    }
}

// A search under way: of all variants so far the rows of the active sessions, how many these are, the least makespan,
// and the active sessions that have it; and the starts tried.
#[derive(Drop)]
pub struct Search<'a> {
    rows: Rows<'a>,
    count: u32,
    makespan: Option<u32>,
    shortest: u32,
    tried: u32,
}

impl<'a> Search<'a> {
    pub fn new(area: &'a mut [u32]) -> Search<'a> {
        Search {
            rows: Rows::new(area),
            count: 0,
            makespan: None,
            shortest: 0,
            tried: 0,
        }
    }

    // What was found for a plan of so many activities; None where too many starts were tried.
    pub fn found(&self, acts: usize) -> Option<Enumerated> {
        if LIMIT <= self.tried {
            return None;
        }
        Some(Enumerated {
            acts,
            count: self.count,
            makespan: self.makespan?,
            shortest: self.shortest,
            cells: self.rows.cells(),
        })
    }

    fn count_tried(&mut self, starts: u32) {
        self.tried = self.tried.saturating_add(starts);
    }

    // A feasible session is found. It has a row if it is active, and for no lower variant.
    fn add(&mut self, case: &Case, starts: &[u32; ACTS]) {
        let plan = case.rules.plan;
        let span = Span::new(plan, starts);
        let makespan = span.makespan();
        self.count_tried(multiples(case.unit, span.ticks));
        if self.makespan.is_none_or(|least| makespan < least) {
            self.makespan = Some(makespan);
            self.shortest = 0;
        }
        let session = Session {
            rules: &case.rules,
            starts,
        };
        if !session.is_active(case.unit) || is_active_below(plan, case.number, starts) {
            return;
        }
        self.count = self.count.saturating_add(1);
        if self.makespan == Some(makespan) {
            self.shortest = self.shortest.saturating_add(1);
        }
        self.rows.put_row(case.number, starts, plan.acts);
    }

    // The activities from i on, each at every multiple of the unit where it fits those before it. Ticks rise, so sessions
    // come by the start of activity 0, then of activity 1, and so on.
    fn place(&mut self, case: &Case, starts: &[u32; ACTS], i: usize) {
        if LIMIT <= self.tried {
            return;
        }
        if ACTS <= i {
            self.add(case, starts);
            return;
        }
        let variant = case.rules.variant;
        if variant.node[i].is_none() {
            self.place(case, starts, i + 1);
            return;
        }
        let ticks = multiples(case.unit, variant.room);
        self.count_tried(ticks);
        let session = Session {
            rules: &case.rules,
            starts,
        };
        for k in 0..ticks {
            let tick = k.saturating_mul(case.unit);
            if session.fits(i, tick) {
                let mut with_start = *starts;
                with_start[i] = tick;
                self.place(case, &with_start, i + 1);
            }
        }
    }

    // The sessions of one more variant.
    pub fn try_all(&mut self, case: &Case) {
        self.place(case, &[ABSENT; ACTS], 0);
    }
}
