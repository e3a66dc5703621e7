// What is kept of the schedules that are found: their number, how many are shortest, the first of these, and the rows.
#![tactic(auto)]

ghost use Rattle.std.specs.Prelude.{true, ◌≡◌, ◌++◌, ◌+◌, ◌*◌, ◌≤◌, ◌<◌, length, take, drop};
ghost use Rattle.base.specs.Order.{is_before};
ghost use Rattle.plan.specs.Limits.{word_values};
ghost use Rattle.schedule.specs.Schedule.{active};
ghost use Rattle.schedule.specs.Sessions.{starts_of};
ghost use Rattle.instance.specs.Table.{project_in, acts_of};
ghost use Rattle.instance.specs.Instance.{Instance};
ghost use Rattle.soonest.specs.Row.{Ended, row_in};
ghost use Rattle.orders.specs.Book.{Prior};
ghost use Rattle.tally.specs.Seen.{starts_from, row_placed, timetable_of, setting_in, line_in, kept_of, IsTally};
ghost use Rattle.tally.specs.Seen.{tally_of, ties_with, better, seen, seen_in, no_tally, rank_in, rank_kept};
ghost use Rattle.tally.specs.Leaf.{start_of, Leaf};

use instance::{ACTS, CAP, Table, VARIANT};
use plan::MOST_ACTS;
use profile::Work;
use timetable::Timetable;

// How many schedules were found and how many of them are shortest; of the first of these the latest end, the variant
// and the starts.
#[derive(Clone, Copy)]
pub struct Tally {
    pub count: u64,
    pub ties: u64,
    pub best_end: u64,
    pub best_variant: u64,
    pub best: Timetable,
}

// The cells of a tally: the same numbers, and from STARTS on a start for each activity number.
pub const COUNT: usize = 0;

pub const TIES: usize = 1;

pub const BEST_END: usize = 2;

pub const BEST_VARIANT: usize = 3;

pub const STARTS: usize = 4;

pub const TALLY_CELLS: usize = STARTS + MOST_ACTS;

pub type Cells = [u64; TALLY_CELLS];

// Nothing found yet; only a schedule that ends by `end` is to be kept.
pub fn none(end: u32) -> Cells
    ensures { IsTally result × (tally_of result ≡ no_tally end) }
{
    let mut cells = [Timetable::MARK as u64; TALLY_CELLS];
    cells[COUNT] = 0;
    cells[TIES] = 0;
    cells[BEST_END] = end as u64;
    cells[BEST_VARIANT] = 0;
    cells
}

fn start_of(end: u32, duration: u32) -> u32
    requires { (end ≡ 0 → ⊥) → duration ≤ end }
    ensures { result ≡ start_of end duration }
{
    if end == 0 {
        Timetable::MARK
    } else {
        end - duration
    }
}

// A row is the variant's number and then a start for each of the plan's activities.
fn write_row(row: &mut [u32], table: &Table, work: &Work)
    requires { Instance table.now × Ended table.now work.now × (acts_of table.now + 1 ≤ length row.old) }
    ensures { row.new
        ≡ line_in table.now work.now
        ++ drop (acts_of table.now + 1) row.old }
{
    let acts = table[ACTS] as usize;
    row[0] = table[VARIANT];
    for i in 0..acts {
        row[1 + i] = start_of(work[i], table[i]);
    }
}

// The row in its own stretch of the area, where that is long enough.
fn list(table: &Table, work: &Work, count: u64, area: &mut [u32])
    requires { Instance table.now × Ended table.now work.now × (count < word_values) }
    ensures { area.new
        ≡ row_placed area.old (count * (acts_of table.now + 1))
        (line_in table.now work.now) }
{
    let acts = table[ACTS] as usize;
    let at = (count as usize) * (acts + 1);
    if at + acts + 1 <= area.len() {
        write_row(&mut area[at..], table, work);
    }
}

// The starts go into their cells.
fn keep(table: &Table, work: &Work, cells: &mut Cells)
    requires { Instance table.now × Ended table.now work.now × IsTally cells.old }
    ensures tally { IsTally cells.new }
    ensures cells_after { cells.new
        ≡ take starts_from cells.old ++ timetable_of (row_in table.now work.now) }
{
    for i in 0..MOST_ACTS {
        cells[STARTS + i] = start_of(work[i], table[i]) as u64;
    }
}

// The starts come before those kept.
fn starts_before(table: &Table, work: &Work, cells: &Cells) -> bool
    requires { Instance table.now × Ended table.now work.now × IsTally cells.now }
    ensures { result
        ≡ is_before (timetable_of (row_in table.now work.now))
        (drop starts_from cells.now) }
{
    for i in 0..MOST_ACTS {
        let start = start_of(work[i], table[i]) as u64;
        if start != cells[STARTS + i] {
            return start < cells[STARTS + i];
        }
    }
    false
}

// The schedule comes before the one kept: by its latest end, then by its variant, then by its starts.
fn is_before(table: &Table, work: &Work, latest: u32, cells: &Cells) -> bool
    requires { Leaf table.now work.now latest cells.now }
    ensures { result
        ≡ is_before (rank_in table.now work.now) (rank_kept (tally_of cells.now)) }
{
    let end = latest as u64;
    if end != cells[BEST_END] {
        return end < cells[BEST_END];
    }
    let variant = table[VARIANT] as u64;
    if variant != cells[BEST_VARIANT] {
        return variant < cells[BEST_VARIANT];
    }
    starts_before(table, work, cells)
}

// How many end as soon as the one kept, with one more of this latest end. A sooner end begins anew.
fn ties_with(latest: u32, cells: &Cells) -> u64
    requires { IsTally cells.now × ((tally_of cells.now).ties < word_values) }
    ensures { result ≡ ties_with (tally_of cells.now) latest }
{
    let end = latest as u64;
    let ties = cells[TIES];
    if end < cells[BEST_END] {
        return 1;
    }
    if end == cells[BEST_END] {
        return ties + 1;
    }
    ties
}

// The schedule is counted, and kept where it comes before the one kept.
fn rank(table: &Table, work: &Work, latest: u32, cells: &mut Cells)
    requires { Leaf table.now work.now latest cells.old × ((tally_of cells.old).count < word_values) }
    ensures tally { IsTally cells.new }
    ensures cells_after { tally_of cells.new
        ≡ better (project_in table.now) (setting_in table.now) (tally_of cells.old)
        (row_in table.now work.now) }
{
    cells[COUNT] = cells[COUNT] + 1;
    cells[TIES] = ties_with(latest, cells);
    if is_before(table, work, latest, cells) {
        cells[BEST_END] = latest as u64;
        cells[BEST_VARIANT] = table[VARIANT] as u64;
        keep(table, work, cells);
    }
}

// Once there are more than the cap, nothing more is done.
pub fn leave(table: &Table, work: &Work, latest: u32, cells: &mut Cells, area: &mut [u32])
    requires { Leaf table.now work.now latest cells.old }
    ensures tally { IsTally cells.new }
    ensures area_after { kept_of cells.new area.new
        ≡ seen (project_in table.now) (setting_in table.now)
        (kept_of cells.old area.old) (row_in table.now work.now) }
{
    if cells[COUNT] <= table[CAP] as u64 {
        list(table, work, cells[COUNT], area);
        rank(table, work, latest, cells);
    }
}

// A schedule that a lower variant has is passed over.
pub fn leave_new(
    table: &Table,
    work: &Work,
    latest: u32,
    cells: &mut Cells,
    book: &[u32],
    area: &mut [u32],
)
    requires { Leaf table.now work.now latest cells.old
        × Prior table.now book.now
        × (active (project_in table.now) (starts_of (row_in table.now work.now)) ≡ true) }
    ensures tally { IsTally cells.new }
    ensures area_after { kept_of cells.new area.new
        ≡ seen_in table.now book.now (kept_of cells.old area.old)
        (row_in table.now work.now) }
{
    if orders::is_new(table, work, book) {
        leave(table, work, latest, cells, area);
    }
}

// The tally that the cells hold.
pub fn tally_of(cells: &Cells) -> Tally
    requires { IsTally cells.now }
    ensures { result ≡ tally_of cells.now }
{
    let mut best = Timetable::empty();
    for i in 0..MOST_ACTS {
        best.starts[i] = cells[STARTS + i] as u32;
    }
    Tally {
        count: cells[COUNT],
        ties: cells[TIES],
        best_end: cells[BEST_END],
        best_variant: cells[BEST_VARIANT],
        best,
    }
}
