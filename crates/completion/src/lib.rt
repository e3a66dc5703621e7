// The rest of a schedule once nothing is contested any more.
#![tactic(auto)]

ghost use Rattle.std.specs.Prelude.{◌≡◌, ◌^◌, ◌≤◌, ◌<◌};
ghost use Rattle.plan.specs.Limits.{latest_possible};
ghost use Rattle.sets.specs.Sets.{most};
ghost use Rattle.scan.specs.Scan.{Diagram};
ghost use Rattle.instance.specs.Instance.{Linked};
ghost use Rattle.profile.specs.Work.{latest_of, Timed};
ghost use Rattle.steps.specs.Steps.{frozen_in};
ghost use Rattle.tally.specs.Seen.{kept_of};
ghost use Rattle.unbranched.specs.Position.{Position, Given, Explored};
ghost use Rattle.completion.specs.Rest.{Uncontested, Readies};

use instance::{LINK, NEAR, NEXT, PREDS, Table};
use profile::{Work, latest, store_end, store_ready};
use sets::{activities, after_lowest, lowest};
use steps::{Line, loose, soon_of, waiting};
use tally::{Cells, leave, leave_new};

// Those of `new` that have no predecessor left, which are made ready: from the latest end of their nearest predecessors
// on, and not before the tick.
#[tactic(auto, using(sets::proofs::Members::lowest_low))]
fn make_ready(table: &Table, work: &mut Work, tick: u32, left: u32, new: u32) -> u32
    requires { (new < 2 ^ most) × (tick ≤ latest_possible) × Linked table.now × Timed work.old }
    ensures { Readies table.now tick left new work.old work.new result }
{
    let mut ready = 0;
    for j in activities(new) {
        if !sets::meets(table[PREDS + j], left) {
            let from = latest(work, table[NEAR + j]).max(tick);
            store_ready(work, j, from);
            ready = sets::union(ready, sets::single(j));
        }
    }
    ready
}

// Every activity left is the only one left of its component, and no two of that can run together: each starts as soon
// as it can. A variant without a lower one that has its activities is spared the test for new schedules.
pub fn complete(
    table: &Table,
    line: Line,
    latest: u32,
    work: &mut Work,
    cells: &mut Cells,
    book: &[u32],
    area: &mut [u32],
)
    requires { Given table.now book.now cells.old × Uncontested table.now line.left
        × (latest ≡ latest_of work.old (frozen_in line)) × ((d : Diagram) × Position table.now line work.old d) }
    ensures { Explored table.now book.now line (kept_of cells.old area.old)
        work.old work.new cells.new area.new }
{
    let mut last = latest;
    let mut rest = line.left;
    let first = make_ready(table, work, line.tick, rest, waiting(line));
    let mut cands = sets::union(loose(line), first);
    while cands != 0 {
        let i = lowest(cands);
        let end = soon_of(table, work, i) + table[i];
        store_end(work, i, end);
        last = last.max(end);
        rest = sets::without(rest, i);
        let next = make_ready(table, work, line.tick, rest, table[NEXT + i]);
        cands = sets::union(after_lowest(cands), next);
    }
    if table[LINK] == 0 {
        leave(table, work, last, cells, area);
    } else {
        leave_new(table, work, last, cells, book, area);
    }
}
