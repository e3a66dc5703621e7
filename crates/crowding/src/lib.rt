// How many of what is left may yet be contested.
#![tactic(auto)]

ghost use Rattle.std.specs.Prelude.{not, ◌||◌, ◌≡◌, ◌^◌, ◌<◌};
ghost use Rattle.sets.specs.Sets.{most, has};
ghost use Rattle.sets.specs.Lowest.{lowest_of, after_lowest};
ghost use Rattle.instance.specs.Instance.{Laid};
ghost use Rattle.instance.specs.Table.{acts_of};
ghost use Rattle.crowding.specs.Crowd.{crowd, Acts, Fewer};

use instance::{COMPONENT, TIGHT, Table};
use sets::{activities, lowest};

// Of a component in which two can run together, or of one that has been seen?
fn is_extra(tight: u32, seen: u32, i: usize, own: usize) -> bool
    requires { (i < most) × (own < most) }
    ensures { result ≡ (not (has tight i) || has seen own) }
{
    !sets::contains(tight, i) || sets::contains(seen, own)
}

// How many of the set may yet be contested.
pub fn crowding(table: &Table, set: u32) -> u32
    requires { Laid table.now × Acts table.now set }
    ensures { result ≡ crowd table.now set }
{
    let mut many = 0;
    let mut seen = 0;
    for i in activities(set) {
        let own = lowest(table[COMPONENT + i]);
        if is_extra(table[TIGHT], seen, i, own) {
            many += 1;
        }
        seen = sets::union(seen, sets::single(own));
    }
    many
}

// How many fewer once the only one of `here` is frozen, where `both` is what is left of its component.
pub fn fewer(table: &Table, here: u32, both: u32) -> u32
    requires { Laid table.now × (0 < here) × (here < 2 ^ most) × (after_lowest here ≡ 0)
        × (lowest_of here < acts_of table.now) }
    ensures { Fewer table.now (lowest_of here) both result }
{
    if here == both && sets::contains(table[TIGHT], lowest(here)) {
        return 0;
    }
    1
}
