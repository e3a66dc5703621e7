// The steps of a move of the scan (document 000, section 4.2).
#![tactic(auto)]

ghost use Rattle.std.specs.Prelude.{true, ◌≡◌, ℕ, ◌^◌, ◌≤◌, ◌<◌};
ghost use Rattle.plan.specs.Limits.{latest_possible};
ghost use Rattle.sets.specs.Sets.{most, has};
ghost use Rattle.instance.specs.Instance.{Laid};
ghost use Rattle.instance.specs.Table.{acts_of, own_at};
ghost use Rattle.profile.specs.Work.{soon_at, Timed};
ghost use Rattle.steps.specs.Steps.{Sets, Runs, frozen_in, running_in, waiting_in, loose_in, deleted_line};
ghost use Rattle.steps.specs.Steps.{never, is_ahead, is_free, FirstEnd, FirstStop, Moves, Last, Shifts, Deletes};
ghost use Rattle.steps.specs.Steps.{Attaches};
ghost use Rattle.steps.specs.declared.Expired.{Expired};
ghost use Rattle.steps.specs.declared.Line.{Line};
ghost use Rattle.steps.specs.declared.Stop.{Stop};

use instance::{COMPONENT, PREDS, TIGHT, Table};
use profile::{NEVER, Work, end_of, fit_beside, free_of, has_left, ready_of, store_ready};
use sets::{activities, lowest};

// Where the scan stands: the tick of the scan-line, the activities that are placed, those not yet frozen, and T; the
// contested components that are still to be resolved there; and those placed and not frozen that a frozen one of their
// component has passed by start and number; and the frozen that may end behind the last start of their component. The
// working array has the diagram.
#[derive(Clone, Copy)]
pub struct Line {
    pub tick: u32,
    pub placed: u32,
    pub left: u32,
    pub term: u32,
    pub due: u32,
    pub passed: u32,
    pub live: u32,
}

// The frozen activities that are still in T.
pub fn running(line: Line) -> u32
    ensures { result ≡ running_in line }
{
    sets::minus(line.term, line.left)
}

// Those not yet placed.
pub fn waiting(line: Line) -> u32
    ensures { result ≡ waiting_in line }
{
    sets::minus(line.left, line.placed)
}

// Those placed and not frozen.
pub fn loose(line: Line) -> u32
    ensures { result ≡ loose_in line }
{
    sets::common(line.placed, line.left)
}

// A stopping time, and the components of those not frozen that end on it.
#[derive(Clone, Copy)]
pub struct Stop {
    pub tick: u32,
    pub due: u32,
}

// The number of the component of an activity.
fn component_of(table: &Table, i: usize) -> usize
    requires { Laid table.now × (i < acts_of table.now) }
    ensures { (result ≡ own_at table.now i) × (result < most) }
{
    lowest(table[COMPONENT + i])
}

// The first tick on which one that is placed and not frozen can start.
pub fn soon_of(table: &Table, work: &Work, i: usize) -> u32
    requires { Laid table.now × (i < acts_of table.now) }
    ensures { result ≡ soon_at table.now work.now i }
{
    let ready = ready_of(work, i);
    let free = free_of(work, component_of(table, i));
    ready.max(free)
}

// The first of a tick and the ends of a set that is placed and not frozen.
#[tactic(auto, using(sets::proofs::Members::lowest_low))]
fn first_stop(table: &Table, work: &Work, set: u32, first: u32) -> Stop
    requires { Laid table.now × Timed work.now × (set < 2 ^ most)
        × ((i : ℕ) → has set i ≡ true → i < acts_of table.now) }
    ensures { FirstStop table.now work.now set first result }
{
    let mut tick = first;
    let mut due = 0;
    for i in activities(set) {
        let own = sets::single(component_of(table, i));
        let end = soon_of(table, work, i) + table[i];
        if end < tick {
            tick = end;
            due = own;
        } else if end == tick {
            due = sets::union(due, own);
        }
    }
    Stop { tick, due }
}

// Step 2: the scan-line goes to the next stopping time, where `first` is the first end of what is frozen and in T.
pub fn move_line(table: &Table, work: &Work, line: Line, first: u32) -> Line
    requires { Sets table.now work.now line }
    ensures { Moves table.now work.now line first result }
{
    let stop = first_stop(table, work, loose(line), first);
    Line {
        tick: stop.tick,
        due: stop.due,
        ..line
    }
}

// Where nothing waits, a stop on which only frozen activities end changes nothing but T: the scan-line goes to the
// first end of what is placed and not frozen, and T stays as it was.
pub fn jump(table: &Table, work: &Work, line: Line) -> Line
    requires { Sets table.now work.now line }
    ensures { Moves table.now work.now line never result }
{
    move_line(table, work, line, NEVER)
}

// a before b, and where they are equal i before j.
fn is_ahead(a: u32, i: usize, b: u32, j: usize) -> bool
    ensures { result ≡ is_ahead a i b j }
{
    if a != b {
        return a < b;
    }
    i < j
}

// Step 3: what else is placed and not frozen in the component of j, which was frozen, is shifted to its next fit; those
// that j has passed.
#[tactic(auto, using(sets::proofs::Members::lowest_low, crate::proofs::Ready::frozen_below))]
pub fn shift(table: &Table, work: &mut Work, line: Line, j: usize) -> u32
    requires { Sets table.now work.old line × (has (frozen_in line) j ≡ true)
        × Last table.now work.old line j }
    ensures { Shifts table.now line j work.old work.new result }
{
    let component = table[COMPONENT + j];
    let end = end_of(work, j);
    let start = end - table[j];
    let live = sets::common(line.live, component);
    let mut passed = sets::minus(line.passed, component);
    for k in activities(sets::common(loose(line), component)) {
        let from = ready_of(work, k);
        if from < end && start < from + table[k] {
            let next = fit_beside(table, work, live, k, from, start);
            store_ready(work, k, next);
        }
        if is_ahead(ready_of(work, k), k, start, j) {
            passed = sets::union(passed, sets::single(k));
        }
    }
    passed
}

// T without the frozen activities that have ended, and the first end of those that it keeps.
#[derive(Clone, Copy)]
pub struct Expired {
    pub term: u32,
    pub first: u32,
}

// Step 4: T loses the frozen activities that have ended.
#[tactic(auto, using(sets::proofs::Members::lowest_low))]
pub fn expire(work: &Work, line: Line) -> Expired
    requires { line.term < 2 ^ most }
    ensures { Deletes work.now line result.term
        × FirstEnd work.now (running_in (deleted_line line result.term)) result.first }
{
    let mut term = line.term;
    let mut first = NEVER;
    for i in activities(running(line)) {
        let end = end_of(work, i);
        if end <= line.tick {
            term = sets::minus(term, sets::single(i));
        } else {
            first = first.min(end);
        }
    }
    Expired { term, first }
}

// Where no two of its component can run together, an activity is free to start once the component is.
fn is_free(table: &Table, work: &Work, line: Line, i: usize) -> bool
    requires { Sets table.now work.now line × Runs table.now work.now line × (has line.left i ≡ true) }
    ensures { result ≡ is_free table.now work.now line i }
{
    if sets::contains(table[TIGHT], i) {
        return free_of(work, component_of(table, i)) <= line.tick;
    }
    let component = table[COMPONENT + i];
    let among = sets::common(running(line), component);
    has_left(table, among, i)
}

// Step 5: what waits, has no predecessor in T and room starts at the scan-line; what is placed then.
#[tactic(auto, using(sets::proofs::Members::lowest_low))]
pub fn attach(table: &Table, work: &mut Work, line: Line) -> u32
    requires { Sets table.now work.old line × Runs table.now work.old line × (line.tick ≤ latest_possible) }
    ensures { Attaches table.now line work.old work.new result }
{
    let mut placed = line.placed;
    for i in activities(waiting(line)) {
        if !sets::meets(table[PREDS + i], line.term) && is_free(table, work, line, i) {
            store_ready(work, i, line.tick);
            placed = sets::union(placed, sets::single(i));
        }
    }
    placed
}
