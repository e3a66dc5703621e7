// Timetables made of a session, and one that every variant has: what CHECK is asked about.
use enumerator::ABSENT;
use plain::{ACTS, Kind, Plan, Variant};

// The latest start there is. From a duration of 2 on its end is past 32 bits.
const LATEST: u32 = 4294967294;

// The changes of a start. One that is present comes a tick later, or a tick sooner, which from tick 0 is two ticks
// later; or it is absent, or as late as can be. One that is absent is there.
pub fn changes(start: u32) -> [u32; 4] {
    match start {
        ABSENT => [0, 1, 2, LATEST],
        0 => [1, 2, ABSENT, LATEST],
        _ => [start.wrapping_add(1), start - 1, ABSENT, LATEST],
    }
}

// Every start so many ticks later.
pub fn shifted(starts: [u32; ACTS], ticks: u32) -> [u32; ACTS] {
    let mut all = starts;
    for start in &mut all {
        if *start != ABSENT {
            *start = start.wrapping_add(ticks);
        }
    }
    all
}

// How many ticks the latest start is before the latest there is.
pub fn room(starts: [u32; ACTS]) -> u32 {
    let mut least = LATEST;
    for start in &starts {
        if *start != ABSENT {
            least = least.min(LATEST.wrapping_sub(*start));
        }
    }
    least
}

// The activities of a variant one after the other, in the order of their nodes.
pub fn in_line(p: &Plan, v: &Variant) -> [u32; ACTS] {
    let mut starts = [ABSENT; ACTS];
    let mut tick = 0u32;
    for (node, remains) in p.node.iter().zip(&v.remains) {
        let i = node.number as usize;
        if *remains && node.kind == Kind::Act && i < ACTS {
            starts[i] = tick;
            tick = tick.wrapping_add(p.activity[i].duration);
        }
    }
    starts
}
