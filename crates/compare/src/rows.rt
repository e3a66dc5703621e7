// The rows of a listing, and the first shortest of them. A row is a variant and a start for each activity.
ghost use Rattle.std.specs.Prelude.{◌<◌};

use enumerator::ABSENT;
use plain::{ACTS, Plan};

// A session: its variant, its makespan and its starts, with the mark behind the plan's activities.
#[derive(Clone, Copy, PartialEq, Eq)]
pub struct Row {
    pub variant: u64,
    pub makespan: u64,
    pub starts: [u32; ACTS],
}

// The variant of a row.
pub fn variant_of(row: &[u32]) -> u32 {
    row.first().copied().unwrap_or(0)
}

// The starts of a row.
pub fn starts_of(row: &[u32]) -> [u32; ACTS] {
    let mut starts = [ABSENT; ACTS];
    for (start, cell) in starts.iter_mut().zip(row.iter().skip(1)) {
        *start = *cell;
    }
    starts
}

// How many cells a row takes.
pub fn width(acts: usize) -> usize
    ensures { 0 < result }
{
    acts.min(ACTS) + 1
}

// The first row of the least makespan.
pub fn first_shortest(p: &Plan, rows: &[u32]) -> Option<Row> {
    let mut best: Option<Row> = None;
    for row in rows.chunks_exact(width(p.acts)) {
        let starts = starts_of(row);
        let makespan = u64::from(enumerator::makespan(p, &starts));
        let is_shorter = match best {
            Some(best) => makespan < best.makespan,
            None => true,
        };
        if is_shorter {
            best = Some(Row {
                variant: u64::from(variant_of(row)),
                makespan,
                starts,
            });
        }
    }
    best
}
