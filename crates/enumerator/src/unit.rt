// The unit of a variant is the greatest common divisor of its durations, and no start is tried but its multiples. Room
// comes only with an end, so the first tick on which an activity fits beside others is 0 or the end of one of them. So
// each start of an active session is a sum of durations of other activities, and every active session is tried; where
// all starts are multiples, an activity that can start sooner can do so at a multiple; and no feasible session is
// shorter than every active one.
use plain::{Plan, Variant};

// The greatest common divisor of two numbers, by Euclid.
fn divisor(a: u32, b: u32) -> u32 {
    let mut greater = a;
    let mut less = b;
    while less != 0 {
        (greater, less) = (less, greater % less);
    }
    greater
}

pub fn unit(p: &Plan, v: &Variant) -> u32 {
    let mut unit = 0;
    for (activity, node) in p.activity.iter().zip(&v.node) {
        if node.is_some() {
            unit = divisor(unit, activity.duration);
        }
    }
    unit
}

// How many multiples of the unit are below a tick; of 0 there are none.
pub fn multiples(unit: u32, tick: u32) -> u32 {
    if unit == 0 { 0 } else { tick.div_ceil(unit) }
}
