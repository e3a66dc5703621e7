// Small valid plan files of both editions, each made of a seed: one to six activities, durations that are short or
// those of soak tests, resources of one unit or more, and a term of few variants.
#![tactic(auto)]

ghost use Rattle.std.specs.Prelude.{◌≤◌};
ghost use Rattle.generator.specs.Text.{Counts};

mod choices;
mod fault;
mod random;
mod text;
mod tree;

pub use fault::damage;
use random::{below, drawn};
use text::{Writer, within};
use tree::Term;

// The resources of a plan: one, a few, or the most there may be.
fn resources(state: u64) -> u8 {
    let r = state % 4;
    if r == 3 { 16 } else { r as u8 + 1 }
}

// The longest duration is shorter where there are more activities.
fn longest(acts: u8) -> u8
    ensures { result ≤ 4 }
{
    match acts {
        0..=3 => 4,
        4..=5 => 3,
        _ => 2,
    }
}

// Some plans have equal durations.
fn duration(state: u64, first: u64, acts: u8) -> u8 {
    let most = longest(acts);
    let drawn_from = if first % 3 == 0 { first / 3 } else { state };
    below(drawn_from, most) + 1
}

// Every other plan of four activities or more has soak tests, of 10000 ticks for a duration of 1, else of 20000.
fn soaked(duration: u8, seed: u64, acts: u8) -> u32 {
    if acts < 4 || seed % 2 == 1 {
        u32::from(duration)
    } else if duration == 1 {
        10000
    } else {
        20000
    }
}

// Two plans of three are of edition 2.
fn is_second(seed: u64) -> bool {
    seed / 2 % 3 != 0
}

// The units that a resource has in edition 2: few as a rule.
fn capacity(seed: u64, resource: u8) -> u8 {
    let state = drawn(drawn(seed.wrapping_add(u64::from(resource))));
    if below(state, 8) == 0 {
        15
    } else {
        below(state >> 8, 3) + 1
    }
}

// The units that an activity holds of a resource: some of most resources where these are few, of few where they are
// many.
fn units(state: u64, res: u8, most: u8) -> u8 {
    let idle = if res < 4 { 1 } else { 3 };
    if below(state >> 8, 4) < idle {
        0
    } else {
        below(state, most).saturating_add(1)
    }
}

fn capacities(writer: &mut Writer, seed: u64, res: u8) {
    for r in 0..res {
        writer.line(b"cap=", u32::from(capacity(seed, r)));
    }
}

// The counts of an activity in edition 2, one for each resource.
fn counts(writer: &mut Writer, seed: u64, first: u64, res: u8) {
    let mut state = first;
    for r in 0..res {
        state = drawn(state);
        writer.value(b",", u32::from(units(state, res, capacity(seed, r))));
    }
    writer.put(b'\n');
}

fn activity(writer: &mut Writer, seed: u64, state: u64, duration: u32, res: u8) {
    if is_second(seed) {
        writer.value(b"act=", duration);
        counts(writer, seed, state, res);
    } else {
        writer.activity(below(state, res), duration);
    }
}

fn activities(writer: &mut Writer, seed: u64, acts: u8, res: u8) {
    let mut state = seed;
    for _ in 0..acts {
        let short = duration(state >> 6, seed >> 12, acts);
        activity(writer, seed, state, soaked(short, seed, acts), res);
        state = drawn(state);
    }
}

fn nodes(writer: &mut Writer, t: &Term) {
    writer.line(b"nodes=", u32::from(t.nodes));
    for node in t.node.iter().take(usize::from(t.nodes)) {
        writer.node(node.kind, node.number);
    }
}

// The edition and the resources.
fn head(writer: &mut Writer, seed: u64, res: u8) {
    writer.line(b"plan=", if is_second(seed) { 2 } else { 1 });
    writer.line(b"res=", u32::from(res));
    if is_second(seed) {
        capacities(writer, seed, res);
    }
}

fn written(seed: u64, out: &mut [u8]) -> usize {
    let first = drawn(drawn(random::seeded(seed)));
    let second = drawn(first);
    let third = drawn(second);
    let res = resources(first);
    let acts = below(second, 6) + 1;
    let mut writer = Writer::new(out, 0);
    head(&mut writer, third, res);
    writer.line(b"acts=", u32::from(acts));
    activities(&mut writer, third, acts, res);
    let apart = drawn(third / 2 + 1);
    nodes(&mut writer, &tree::grown(apart, acts));
    writer.at()
}

// Writes the plan of a seed, and returns its length. What does not fit the area is left out; 1024 bytes are enough.
pub fn generate(seed: u64, out: &mut [u8]) -> usize
    ensures { Counts result out.new }
{
    let length = written(seed, out);
    within(out, length)
}
