// One variant of a plan: its project, the plan file that writes it out, and its order in tables. Beside the order these
// are definitions and the facts about them.
#![tactic(auto)]

use plan::MOST_ACTS;

// What a variant adds to the tables of its plan: the set of the activities that it has, and for each activity number
// the set of those before it.
#[derive(Clone, Copy)]
pub struct Variant {
    pub present: u32,
    pub preds: [u32; MOST_ACTS],
}
