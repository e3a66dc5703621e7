// Plan files of both editions by the definitions alone: the lines one by one, the refusals that rest on the file, and
// the variants in the order of their numbers. It shares no code with the planner.
#![tactic(auto)]

mod line;
mod picks;
mod refusal;
mod tables;
mod text;
mod verdict;

pub use picks::{Variant, Variants};
pub use refusal::Refusal;
pub use tables::{Activity, Kind, Node, Plan};
pub use verdict::{Judged, judge};

// The most resources, activities, nodes and variants of a plan, and the longest duration.
pub const RESOURCES: usize = 16;

pub const ACTS: usize = 24;

pub const NODES: usize = 64;

const VARIANTS: usize = 4096;

const LONGEST: u32 = 20000;
