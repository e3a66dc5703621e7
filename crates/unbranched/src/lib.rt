// What needs no branch: the moves between two branches.
#![tactic(auto)]

ghost use Rattle.std.specs.Prelude.{◌≡◌, ◌<◌, true, set};
ghost use Rattle.sets.specs.Sets.{most, has};
ghost use Rattle.scan.specs.Scan.{Diagram};
ghost use Rattle.instance.specs.Instance.{Instance};
ghost use Rattle.steps.specs.declared.Line.{Line};
ghost use Rattle.steps.specs.Steps.{frozen_in};
ghost use Rattle.profile.specs.Work.{latest_of};
ghost use Rattle.crowding.specs.Crowd.{crowd};
ghost use Rattle.unbranched.specs.declared.Reached.{Reached};
ghost use Rattle.unbranched.specs.Position.{Position, Onward};
ghost use Rattle.unbranched.specs.Advance.{frozen_line, Advances};

use crowding::fewer;
use instance::{COMPONENT, Table};
use profile::{Work, store_end};
use sets::{after_lowest, lowest};
use steps::{Line, attach, expire, jump, move_line, waiting};

// All components of the stop are resolved: Steps 4 and 5 end the move, and Step 2 begins the next one. Where nothing
// waits the scan-line jumps.
fn move_on(table: &Table, work: &mut Work, line: Line) -> Line
    requires { Instance table.now × (line.due ≡ 0) × (0 < line.left)
        × ((d : Diagram) × Position table.now line work.old d) }
    ensures { Onward table.now line work.old work.new result }
{
    if waiting(line) == 0 {
        return jump(table, work, line);
    }
    let expired = expire(work, line);
    let deleted = Line {
        term: expired.term,
        ..line
    };
    let placed = attach(table, work, deleted);
    move_line(table, work, Line { placed, ..deleted }, expired.first)
}

// Step 3, where an activity is alone in its component: it is frozen where it stands, and ends on the scan-line.
fn freeze(work: &mut Work, line: Line, i: usize, component: usize) -> Line
    requires { (i < most) × (has line.left i ≡ true) × (component < most) × (has line.due component ≡ true) }
    ensures { (result ≡ frozen_line line i component)
        × (work.new ≡ set work.old i line.tick) }
{
    store_end(work, i, line.tick);
    Line {
        left: sets::without(line.left, i),
        due: sets::without(line.due, component),
        live: sets::union(line.live, sets::single(i)),
        ..line
    }
}

// Where the moves without a branch have led: the line, the latest frozen end, how many activities are left that may yet
// be contested, and those of the first component that several contest, or none.
#[derive(Clone, Copy)]
pub struct Reached {
    pub line: Line,
    pub latest: u32,
    pub many: u32,
    pub rivals: u32,
}

// The moves without a branch, until several contest a component or none will be contested any more.
pub fn advance(table: &Table, work: &mut Work, from: Line, latest: u32, contests: u32) -> Reached
    requires { Instance table.now × (latest ≡ latest_of work.old (frozen_in from))
        × (contests ≡ crowd table.now from.left)
        × ((d : Diagram) × Position table.now from work.old d) }
    ensures { Advances table.now from work.old work.new result }
{
    let mut line = from;
    let mut last = latest;
    let mut many = contests;
    let mut rivals = 0;
    while rivals == 0 && many != 0 {
        if line.due == 0 {
            line = move_on(table, work, line);
        } else {
            let c = lowest(line.due);
            let both = sets::common(table[COMPONENT + c], line.left);
            let here = sets::common(both, line.placed);
            if after_lowest(here) == 0 && !sets::meets(here, line.passed) {
                line = freeze(work, line, lowest(here), c);
                last = last.max(line.tick);
                many -= fewer(table, here, both);
            } else {
                rivals = here;
            }
        }
    }
    Reached {
        line,
        latest: last,
        many,
        rivals,
    }
}
