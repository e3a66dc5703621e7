// A plain enumerator of the active sessions of a plan file, and a plain test of a timetable, by the definitions alone.
// It shares no code with the planner.
#![tactic(auto)]

mod lower;
mod placing;
mod rows;
mod rules;
mod session;
mod span;
mod unit;

use placing::{Case, Search};
use plain::{ACTS, Judged, Plan, Variant};
pub use rules::Rules;
use session::Session;
use span::Span;

// The start of an activity that is absent, as a timetable has it.
pub const ABSENT: u32 = u32::MAX;

// What the variants of a plan have together: the number of their active sessions, each counted once, the least makespan
// of a feasible session, how many of the active ones have it, and how many cells the rows of the active ones take.
#[derive(Clone, Copy)]
pub struct Enumerated {
    pub acts: usize,
    pub count: u32,
    pub makespan: u32,
    pub shortest: u32,
    pub cells: usize,
}

// The active sessions of a plan, each once under the lowest variant that it is active for, their rows from the front of
// the area: by variant, then by the start of activity 0, then of activity 1, and so on. A row that does not fit is left
// out. None where the file is refused, or too many starts were tried.
pub fn enumerate(file: &[u8], area: &mut [u32]) -> Option<Enumerated> {
    let Judged::Accepted { plan, variants } = plain::judge(file) else {
        return None;
    };
    let mut search = Search::new(area);
    for (number, variant) in (0..variants).zip(plan.variants()) {
        search.try_all(&Case::new(&plan, &variant, number));
    }
    search.found(plan.acts)
}

// The makespan of a session of a plan that has these starts.
pub fn makespan(p: &Plan, starts: &[u32; ACTS]) -> u32 {
    Span::new(p, starts).makespan()
}

// The rules of a variant of a plan.
pub fn rules_of<'a>(p: &'a Plan, v: &'a Variant) -> Rules<'a> {
    Rules::new(p, v)
}

// Is a timetable a feasible session of a variant with these rules?
pub fn is_session(rules: &Rules, starts: &[u32; ACTS]) -> bool {
    lower::has_activities(rules.variant, starts) && Session { rules, starts }.is_feasible()
}
