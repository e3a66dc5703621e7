// Every order of what is left in one component.
#![tactic(auto)]

ghost use Rattle.std.specs.Prelude.{Bool, ◌≡◌, ℕ, ◌<◌, ltb};
ghost use Rattle.sets.specs.Lowest.{after_lowest};
ghost use Rattle.schedule.specs.Schedule.{Starts};
ghost use Rattle.instance.specs.Instance.{Instance};
ghost use Rattle.instance.specs.Table.{cap_of};
ghost use Rattle.tally.specs.Seen.{kept_of, tally_of};
ghost use Rattle.unbranched.specs.Position.{Given};
ghost use Rattle.ordering.specs.Lone.{Lone, Ordered};

use instance::{CAP, LINK, Table};
use profile::{Work, ready_of, store_end};
use sets::{activities, after_lowest, lowest};
use tally::{COUNT, Cells, leave, leave_new};

// More schedules than the cap have been seen.
pub fn is_over(table: &Table, cells: &Cells) -> bool
    requires { Instance table.now }
    ensures { result ≡ ltb (cap_of table.now) (tally_of cells.now).count }
{
    cells[COUNT] > table[CAP] as u64
}

// The last activity left is frozen, from `free` on at the soonest.
fn finish(
    table: &Table,
    left: u32,
    free: u32,
    latest: u32,
    work: &mut Work,
    cells: &mut Cells,
    book: &[u32],
    area: &mut [u32],
)
    requires { Given table.now book.now cells.old × (0 < left) × (after_lowest left ≡ 0)
        × ((F : ℕ → Bool) × (S : Starts) × Lone table.now left free latest work.old F S) }
    ensures { Ordered table.now book.now left free latest
        (kept_of cells.old area.old) work.old work.new cells.new
        area.new }
{
    let i = lowest(left);
    let end = ready_of(work, i).max(free) + table[i];
    store_end(work, i, end);
    let last = latest.max(end);
    if table[LINK] == 0 {
        leave(table, work, last, cells, area);
    } else {
        leave_new(table, work, last, cells, book, area);
    }
}

// Nothing waits, and all that is left is in one component, in which no two can run together and which is free from
// `free` on: every order of it.
pub fn order(
    table: &Table,
    left: u32,
    free: u32,
    latest: u32,
    work: &mut Work,
    cells: &mut Cells,
    book: &[u32],
    area: &mut [u32],
)
    requires { Given table.now book.now cells.old × (0 < after_lowest left)
        × ((F : ℕ → Bool) × (S : Starts) × Lone table.now left free latest work.old F S) }
    ensures { Ordered table.now book.now left free latest
        (kept_of cells.old area.old) work.old work.new cells.new
        area.new }
{
    if is_over(table, cells) {
        return;
    }
    for j in activities(left) {
        let end = ready_of(work, j).max(free) + table[j];
        store_end(work, j, end);
        let last = latest.max(end);
        let fewer = sets::without(left, j);
        if after_lowest(fewer) == 0 {
            finish(table, fewer, end, last, work, cells, book, area);
        } else {
            order(table, fewer, end, last, work, cells, book, area);
        }
    }
}
