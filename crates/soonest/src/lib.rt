// Whether a schedule is active under another order of its activities: each of them starts as soon as it fits.
#![tactic(auto, using(sets::proofs::Members::lowest_low))]

ghost use Rattle.std.specs.Prelude.{true, ◌≡◌, ℕ, ◌^◌, ◌≤◌, ◌<◌, length, get_or};
ghost use Rattle.sets.specs.Sets.{most, has};
ghost use Rattle.instance.specs.Table.{present_of};
ghost use Rattle.instance.specs.Instance.{Instance};
ghost use Rattle.soonest.specs.Row.{Ended};
ghost use Rattle.soonest.specs.Soonest.{others_of, IsSoonest, Misplaced};

use instance::{COMPONENT, PRESENT, Table};
use plan::MOST_ACTS;
use profile::{Work, blocked, end_of, latest};
use sets::activities;

// The present activities of the component of j, without j.
fn others_of(table: &Table, j: usize) -> u32
    requires { Instance table.now × (has (present_of table.now) j ≡ true) }
    ensures { result ≡ others_of table.now j }
{
    sets::without(sets::common(table[COMPONENT + j], table[PRESENT]), j)
}

// From the end of all of `before` on, activity j starts on the first tick on which it fits.
fn is_soonest(table: &Table, work: &Work, before: u32, j: usize) -> bool
    requires { Instance table.now × Ended table.now work.now × (before < 2 ^ most)
        × (has (present_of table.now) j ≡ true) }
    ensures { IsSoonest table.now work.now before j result }
{
    let others = others_of(table, j);
    let duration = table[j];
    let end = end_of(work, j);
    let mut t = latest(work, before);
    if end < t + duration {
        return false;
    }
    while t + duration < end {
        t = blocked(table, work, others, j, t);
        if t == 0 {
            return false;
        }
    }
    true
}

// The first activity of a set that does not start as soon as it fits in that order, or MOST_ACTS where there is none.
pub fn misplaced(table: &Table, work: &Work, set: u32, order: &[u32]) -> usize
    requires { Instance table.now × Ended table.now work.now × (set < 2 ^ most)
        × ((j : ℕ) → has set j ≡ true → has (present_of table.now) j ≡ true)
        × (most ≤ length order.now) × ((j : ℕ) → j < most → get_or order.now j 0 < 2 ^ most) }
    ensures { Misplaced table.now work.now set (λ j. get_or order.now j 0) result }
{
    for j in activities(set) {
        if !is_soonest(table, work, order[j], j) {
            return j;
        }
    }
    MOST_ACTS
}
