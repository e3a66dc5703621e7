// Variants of a plan written out, by the paper alone. It shares no code with the planner.
#![tactic(auto)]

mod nodes;
mod text;

use plain::{Plan, Variant};
use text::Writer;

// The longest plan file.
pub const BYTES: usize = 2175;

// A variant of the plan of a file, written from the front of an area; returns its length. The lines before the nodes
// are those of the file. What does not fit is left out.
pub fn write(file: &[u8], p: &Plan, v: &Variant, out: &mut [u8]) -> usize {
    let mut writer = Writer::new(out);
    writer.put_all(text::head(file));
    nodes::put(&mut writer, p, &nodes::chosen(p, v));
    writer.at()
}
