// Whether a lower variant has a session too. Each one is made anew from the plan and tested by definition.
use crate::ABSENT;
use crate::rules::Rules;
use crate::session::Session;
use crate::unit::unit;
use plain::{ACTS, Plan, Variant};

// Has a variant just the activities that have a start?
pub fn has_activities(v: &Variant, starts: &[u32; ACTS]) -> bool {
    v.node
        .iter()
        .zip(starts)
        .all(|(node, start)| node.is_some() == (*start != ABSENT))
}

// Is it an active session of a variant?
fn is_active(p: &Plan, v: &Variant, starts: &[u32; ACTS]) -> bool {
    if !has_activities(v, starts) {
        return false;
    }
    let rules = Rules::new(p, v);
    let session = Session {
        rules: &rules,
        starts,
    };
    session.is_feasible() && session.is_active(unit(p, v))
}

// Is it an active session of a variant whose number is below this?
pub fn is_active_below(p: &Plan, number: u32, starts: &[u32; ACTS]) -> bool {
    let mut lower = p.variants().take(number as usize);
    lower.any(|v| is_active(p, &v, starts))
}
