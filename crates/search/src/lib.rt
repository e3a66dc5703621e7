// The search for the active schedules of one variant.
#![tactic(auto)]

ghost use Rattle.std.specs.Prelude.{true, false, ◌≡◌, ◌^◌, ◌≤◌, ◌<◌};
ghost use Rattle.sets.specs.Sets.{most, has};
ghost use Rattle.sets.specs.Lowest.{lowest_of};
ghost use Rattle.scan.specs.Scan.{Diagram};
ghost use Rattle.instance.specs.Instance.{Laid, Instance};
ghost use Rattle.instance.specs.Table.{acts_of, duration_at, tight_of};
ghost use Rattle.profile.specs.Work.{end_at, latest_of};
ghost use Rattle.crowding.specs.Crowd.{crowd};
ghost use Rattle.steps.specs.Steps.{frozen_in, Lives};
ghost use Rattle.steps.specs.declared.Line.{Line};
ghost use Rattle.orders.specs.Book.{Prior};
ghost use Rattle.tally.specs.Seen.{kept_of, IsTally};
ghost use Rattle.unbranched.specs.Position.{Position, Given, Explored};
ghost use Rattle.unbranched.specs.declared.Reached.{Reached};
ghost use Rattle.search.specs.Choice.{InConflict, Choosing, Spreading, Settles, Takes, Spreads};
ghost use Rattle.search.specs.Branch.{Contest, Found};

use completion::complete;
use crowding::crowding;
use instance::{COMPONENT, PRESENT, TIGHT, Table};
use ordering::{is_over, order};
use profile::{
    WORK_CELLS, Work, behind, end_of, free_of, put_back, ready_column, ready_of, store_end,
    store_free,
};
use sets::{activities, lowest};
use steps::{Line, shift, soon_of};
use tally::Cells;
use unbranched::{Reached, advance};

// The conflict activities of a set: those that are ready before the scan-line and have not been passed.
fn in_conflict(work: &Work, line: Line, set: u32) -> u32
    requires { set < 2 ^ most }
    ensures { InConflict work.now line set result }
{
    let mut found = 0;
    for j in activities(sets::minus(set, line.passed)) {
        if ready_of(work, j) < line.tick {
            found = sets::union(found, sets::single(j));
        }
    }
    found
}

// Step 3: j is frozen where it stands, and its component c is resolved.
fn settle(table: &Table, work: &mut Work, line: Line, c: usize, j: usize) -> Line
    requires { Choosing table.now work.old line c j }
    ensures { Settles table.now line c j work.old work.new result }
{
    let mut next = line;
    next.left = sets::without(line.left, j);
    next.due = sets::without(line.due, c);
    let end = soon_of(table, work, j) + table[j];
    store_end(work, j, end);
    next
}

// Where no two of the component can run together, it is free from the end of j on.
fn take(table: &Table, work: &mut Work, line: Line, c: usize, j: usize) -> Line
    requires { Choosing table.now work.old line c j }
    ensures { Takes table.now line c j work.old work.new result }
{
    let next = settle(table, work, line, c, j);
    let end = end_of(work, j);
    store_free(work, c, end);
    next
}

// What is live once j is frozen where two of its component can run together.
fn still_live(table: &Table, work: &Work, live: u32, j: usize) -> u32
    requires { Laid table.now × (live < 2 ^ most) × (j < acts_of table.now)
        × (duration_at table.now j ≤ end_at work.now j) }
    ensures { Lives table.now work.now live j result }
{
    let component = table[COMPONENT + j];
    let start = end_of(work, j) - table[j];
    let here = behind(work, sets::common(live, component), start);
    sets::union(
        sets::minus(live, component),
        sets::union(here, sets::single(j)),
    )
}

// Elsewhere the others of the component are shifted.
fn spread(table: &Table, work: &mut Work, line: Line, c: usize, j: usize) -> Line
    requires { Spreading table.now work.old line c j }
    ensures { Spreads table.now line c j work.old work.new result }
{
    let mut next = settle(table, work, line, c, j);
    let live = still_live(table, work, line.live, j);
    next.live = live;
    let passed = shift(table, work, next, j);
    next.passed = passed;
    next
}

// Every choice at a stop, where no two of the component can run together.
#[cycle(descend_part_resolve)]
fn resolve(
    table: &Table,
    stop: Reached,
    work: &mut Work,
    cells: &mut Cells,
    book: &[u32],
    area: &mut [u32],
)
    requires { Given table.now book.now cells.old × Contest table.now work.old stop
        × (has (tight_of table.now) (lowest_of stop.line.due) ≡ true) }
    ensures { Explored table.now book.now stop.line
        (kept_of cells.old area.old) work.old work.new cells.new
        area.new }
{
    let c = lowest(stop.line.due);
    let free = free_of(work, c);
    let many = stop.many - 1;
    for j in activities(stop.rivals) {
        let next = take(table, work, stop.line, c, j);
        let last = stop.latest.max(end_of(work, j));
        if many == 0 {
            complete(table, next, last, work, cells, book, area);
        } else {
            descend(table, next, last, many, work, cells, book, area);
        }
        store_free(work, c, free);
    }
}

// The same where two of it can: after each choice what is placed can start when it could before.
#[cycle(descend_part_resolve)]
fn part(
    table: &Table,
    stop: Reached,
    work: &mut Work,
    cells: &mut Cells,
    book: &[u32],
    area: &mut [u32],
)
    requires { Given table.now book.now cells.old × Contest table.now work.old stop
        × (has (tight_of table.now) (lowest_of stop.line.due) ≡ false) }
    ensures { Explored table.now book.now stop.line
        (kept_of cells.old area.old) work.old work.new cells.new
        area.new }
{
    let c = lowest(stop.line.due);
    let saved = ready_column(work);
    let many = stop.many - 1;
    for j in activities(stop.rivals) {
        let next = spread(table, work, stop.line, c, j);
        let last = stop.latest.max(end_of(work, j));
        descend(table, next, last, many, work, cells, book, area);
        put_back(work, &saved);
    }
}

// Every schedule under what the line shows is counted, and kept or written. A conflict combination is chosen component
// by component: one of the activities in conflict is frozen, and the line stays where it is while another component is
// contested.
#[cycle(descend_part_resolve)]
fn descend(
    table: &Table,
    line: Line,
    latest: u32,
    many: u32,
    work: &mut Work,
    cells: &mut Cells,
    book: &[u32],
    area: &mut [u32],
)
    requires { Given table.now book.now cells.old × (latest ≡ latest_of work.old (frozen_in line))
        × (many ≡ crowd table.now line.left) × ((d : Diagram) × Position table.now line work.old d) }
    ensures { Explored table.now book.now line (kept_of cells.old area.old)
        work.old work.new cells.new area.new }
{
    if is_over(table, cells) {
        return;
    }
    let mut stop = advance(table, work, line, latest, many);
    if stop.rivals == 0 {
        complete(table, stop.line, stop.latest, work, cells, book, area);
        return;
    }
    let c = lowest(stop.line.due);
    if !sets::contains(table[TIGHT], c) {
        stop.rivals = in_conflict(work, stop.line, stop.rivals);
        part(table, stop, work, cells, book, area);
        return;
    }
    if stop.rivals == stop.line.left {
        let free = free_of(work, c);
        order(
            table,
            stop.rivals,
            free,
            stop.latest,
            work,
            cells,
            book,
            area,
        );
        return;
    }
    resolve(table, stop, work, cells, book, area);
}

// Every active schedule of the variant in the table that none of the orders up to its link has is counted, until there
// are more than the cap; the one that ends first of all so far is kept, and each is written as a row where the area is
// long enough.
pub fn search(table: &Table, cells: &mut Cells, book: &[u32], area: &mut [u32])
    requires { Instance table.now × Prior table.now book.now × IsTally cells.old }
    ensures tally { IsTally cells.new }
    ensures found { Found table.now book.now (kept_of cells.old area.old)
        (kept_of cells.new area.new) }
{
    let present = table[PRESENT];
    let many = crowding(table, present);
    let mut work = [0; WORK_CELLS];
    let line = Line {
        tick: 0,
        placed: 0,
        left: present,
        term: present,
        due: 0,
        passed: 0,
        live: 0,
    };
    if many == 0 {
        complete(table, line, 0, &mut work, cells, book, area);
    } else {
        descend(table, line, 0, many, &mut work, cells, book, area);
    }
}
