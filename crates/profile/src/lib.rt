// The room among frozen activities.
#![tactic(auto, using(sets::proofs::Members::lowest_low))]

ghost use Rattle.std.specs.Prelude.{true, false, ◌≡◌, ℕ, ◌^◌, ◌≤◌, ◌<◌, ◌+◌, ◌*◌, max, min, length, get_or, set};
ghost use Rattle.plan.specs.Limits.{most_resources, latest_possible};
ghost use Rattle.sets.specs.Sets.{most, has, width};
ghost use Rattle.instance.specs.Instance.{Laid};
ghost use Rattle.instance.specs.Steps.{Filled};
ghost use Rattle.instance.specs.Table.{duration_at, units_at};
ghost use Rattle.profile.specs.Work.{end_at, ready_at, free_at, start_at, ready_from, free_from, latest_of, LeastEnd};
ghost use Rattle.profile.specs.Room.{Among, Others, Running, Behind, Few, units_of, is_left, Full, Blocked};
ghost use Rattle.profile.specs.Room.{NextFit, Late, Opens};
ghost use Rattle.profile.specs.Work.{work_cells, ReadyColumn};

use instance::{CAPACITY, CLASH, RESOURCES, Table, UNITS};
use plan::MOST_RESOURCES;
use sets::{WIDTH, activities, after_lowest, lowest};

// More than any end.
pub const NEVER: u32 = 4294967295;

// The working array has the end of each frozen activity, then when each placed one can start, then the last frozen end
// in each component.
const READY: usize = WIDTH;

const FREE: usize = 2 * WIDTH;

pub const WORK_CELLS: usize = 3 * WIDTH;

pub type Work = [u32; WORK_CELLS];

// The units of an activity are so many cells of the table.
const ROW: usize = MOST_RESOURCES as usize;

// The columns of the working array.
pub fn end_of(work: &Work, i: usize) -> u32
    requires { i < width }
    ensures { result ≡ end_at work.now i }
{
    work[i]
}

pub fn ready_of(work: &Work, i: usize) -> u32
    requires { i < width }
    ensures { result ≡ ready_at work.now i }
{
    work[READY + i]
}

pub fn free_of(work: &Work, c: usize) -> u32
    requires { c < width }
    ensures { result ≡ free_at work.now c }
{
    work[FREE + c]
}

pub fn store_end(work: &mut Work, i: usize, tick: u32)
    requires { i < width }
    ensures { work.new ≡ set work.old i tick }
{
    work[i] = tick;
}

pub fn store_ready(work: &mut Work, i: usize, tick: u32)
    requires { i < width }
    ensures { work.new ≡ set work.old (ready_from + i) tick }
{
    work[READY + i] = tick;
}

pub fn store_free(work: &mut Work, c: usize, tick: u32)
    requires { c < width }
    ensures { work.new ≡ set work.old (free_from + c) tick }
{
    work[FREE + c] = tick;
}

// The latest end in a set of activities, 0 where there is none.
pub fn latest(work: &Work, set: u32) -> u32
    requires { set < 2 ^ most }
    ensures { result ≡ latest_of work.now set }
{
    let mut last: u32 = 0;
    for i in activities(set) {
        last = last.max(end_of(work, i));
    }
    last
}

// The least end in a set.
fn least(work: &Work, set: u32) -> u32
    requires { (0 < set) × (set < 2 ^ most) }
    ensures { LeastEnd work.now set result }
{
    let mut first = end_of(work, lowest(set));
    for i in activities(after_lowest(set)) {
        first = first.min(end_of(work, i));
    }
    first
}

// At most one member?
fn is_few(set: u32) -> bool
    requires { set < 2 ^ most }
    ensures { Few set result }
{
    set == 0 || after_lowest(set) == 0
}

// Those of the set that run on a tick from `first` to `last`.
fn running(table: &Table, work: &Work, set: u32, first: u32, last: u32) -> u32
    requires { (set < 2 ^ most) × (last ≤ 2 * latest_possible) × Laid table.now }
    ensures { Running table.now work.now set first last result }
{
    let mut on = 0;
    for k in activities(set) {
        let end = end_of(work, k);
        if first < end && end <= last + table[k] {
            on = sets::union(on, sets::single(k));
        }
    }
    on
}

// Those of the set that end behind a tick.
pub fn behind(work: &Work, set: u32, tick: u32) -> u32
    requires { set < 2 ^ most }
    ensures { Behind work.now set tick result }
{
    let mut found = 0;
    for k in activities(set) {
        if tick < end_of(work, k) {
            found = sets::union(found, sets::single(k));
        }
    }
    found
}

// The units of resource r that an activity holds, and those that a set holds.
fn units_at(table: &Table, i: usize, r: usize) -> u32
    requires { (i < most) × (r < most_resources) }
    ensures { result ≡ units_at table.now i r }
{
    table[UNITS + ROW * i + r]
}

fn units_of(table: &Table, set: u32, r: usize) -> u32
    requires { (set < 2 ^ most) × (r < most_resources) × Laid table.now }
    ensures { result ≡ units_of table.now set r }
{
    let mut units = 0;
    for k in activities(set) {
        units += units_at(table, k, r);
    }
    units
}

// Are the units that i needs left beside those of a set?
fn is_left(table: &Table, set: u32, i: usize) -> bool
    requires { (set < 2 ^ most) × (i < most) × Laid table.now }
    ensures { result ≡ is_left table.now set i }
{
    let resources = table[RESOURCES] as usize;
    for r in 0..resources {
        let own = units_at(table, i, r);
        if own != 0 && table[CAPACITY + r] < units_of(table, set, r) + own {
            return false;
        }
    }
    true
}

// The same, where i is not of the set: a clash decides it, or one alone without a clash.
pub fn has_left(table: &Table, set: u32, i: usize) -> bool
    requires { Others table.now set i }
    ensures { result ≡ is_left table.now set i }
{
    if sets::meets(set, table[CLASH + i]) {
        return false;
    }
    if is_few(set) {
        return true;
    }
    is_left(table, set, i)
}

// 0 where the units that i needs are left on a tick, else the least end of those that run on it.
fn full_until(table: &Table, work: &Work, set: u32, i: usize, tick: u32) -> u32
    requires { Among table.now work.now set i × (tick ≤ latest_possible) }
    ensures { Full table.now work.now set i tick result }
{
    let on = running(table, work, set, tick, tick);
    if is_left(table, on, i) {
        return 0;
    }
    least(work, on)
}

// 0 where they are left on every tick on which i would run from tick x on, else an end up to which i does not fit. All
// of the set start before i would end.
fn crowded(table: &Table, work: &Work, set: u32, i: usize, x: u32) -> u32
    requires { Among table.now work.now set i × (x ≤ latest_possible)
        × ((k : ℕ) → has set k ≡ true → start_at table.now work.now k < x + duration_at table.now i) }
    ensures { Blocked table.now work.now set i x result }
{
    let first = full_until(table, work, set, i, x);
    if first != 0 {
        return first;
    }
    for k in activities(set) {
        let start = end_of(work, k) - table[k];
        if x < start {
            let until = full_until(table, work, set, i, start);
            if until != 0 {
                return until;
            }
        }
    }
    0
}

// 0 where i fits from tick x on, else an end up to which it does not.
pub fn blocked(table: &Table, work: &Work, set: u32, i: usize, x: u32) -> u32
    requires { Among table.now work.now set i × (x ≤ latest_possible) }
    ensures { Blocked table.now work.now set i x result }
{
    let over = running(table, work, set, x, x + (table[i] - 1));
    let clash = sets::common(over, table[CLASH + i]);
    if clash != 0 {
        return latest(work, clash);
    }
    if is_few(over) {
        return 0;
    }
    crowded(table, work, over, i, x)
}

// i has no room beside a set: the end up to which it has none, the last of those that clash with it, or else the first.
fn opening(table: &Table, work: &Work, set: u32, i: usize) -> u32
    requires { Among table.now work.now set i × (is_left table.now set i ≡ false) }
    ensures { Opens table.now work.now set i result }
{
    let clash = sets::common(set, table[CLASH + i]);
    if clash != 0 {
        return latest(work, clash);
    }
    least(work, set)
}

// The first tick from x on at which i fits among a set that has started by tick `start`, and of which `live` may end
// behind it.
pub fn fit_beside(table: &Table, work: &Work, live: u32, i: usize, x: u32, start: u32) -> u32
    requires { (live < 2 ^ most) × (x ≤ latest_possible)
        × ((set : ℕ) × Late table.now work.now set live i x start) }
    ensures { (set : ℕ) → Late table.now work.now set live i x start
        → NextFit table.now work.now set i x result }
{
    let mut tick = x;
    let mut beside = behind(work, live, x.max(start));
    while !has_left(table, beside, i) {
        tick = opening(table, work, beside, i);
        beside = behind(work, beside, tick);
    }
    tick
}

// When each placed one can start, apart, and put back.
pub type Column = [u32; WIDTH];

pub fn ready_column(work: &Work) -> Column
    ensures { ReadyColumn work.now result }
{
    let mut column = [0; WIDTH];
    column.copy_from_slice(&work[READY..FREE]);
    column
}

pub fn put_back(work: &mut Work, column: &Column)
    requires { length work.old ≡ work_cells }
    ensures { Filled work.old ready_from width (λ i x. x ≡ get_or column.now i 0)
        work.new }
{
    work[READY..FREE].copy_from_slice(column);
}
