// Is a timetable a feasible session of a variant?
#![tactic(auto)]

ghost use Rattle.std.specs.Prelude.{◌≡◌, ◌+◌, ◌<◌, leb};
ghost use Rattle.plan.specs.Limits.{most_resources, most_acts};
ghost use Rattle.plan.specs.Plan.{plan_of, Ranged};
ghost use Rattle.term.specs.Term.{Term};
ghost use Rattle.variant.specs.Timetable.{is_session};
ghost use Rattle.variant.specs.Tables.{OrderOf};
ghost use Rattle.feasibility.specs.Model.{mark_right, marks_right, ends_by, ends_before, after_all, order_kept};
ghost use Rattle.feasibility.specs.Model.{runs_at, held_at, within_at, within_all};

use plan::{MOST_ACTS, Tables};
use timetable::Timetable;
use variant::Variant;

// The mark at an absent activity, and at no other.
fn mark_right(there: bool, start: u32) -> bool
    ensures { result ≡ mark_right there start }
{
    if there {
        start != Timetable::MARK
    } else {
        start == Timetable::MARK
    }
}

// The end is a whole number, which may need more bits than a start.
fn is_over(start: u32, duration: u16, tick: u32) -> bool
    ensures { result ≡ leb (start + duration) tick }
{
    u64::from(start) + u64::from(duration) <= u64::from(tick)
}

// A timetable that may be a session of the variant of the plan in tables.
#[derive(Clone, Copy)]
struct Candidate<'a> {
    tables: &'a Tables,
    variant: &'a Variant,
    starts: &'a [u32; MOST_ACTS],
}

impl Candidate<'_> {
    fn marks_right(&self) -> bool
        ensures { result ≡ marks_right self.now }
    {
        (0..MOST_ACTS).all(|i| mark_right(sets::contains(self.variant.present, i), self.starts[i]))
    }

    // Activity i ends by the start of j.
    fn ends_by(&self, i: usize, j: usize) -> bool
        requires { (i < most_acts) × (j < most_acts) }
        ensures { result ≡ ends_by self.now i j }
    {
        is_over(
            self.starts[i],
            self.tables.activity[i].duration,
            self.starts[j],
        )
    }

    // If i is one of those before j, it ends by the start of j.
    fn ends_before(&self, i: usize, j: usize) -> bool
        requires { (i < most_acts) × (j < most_acts) }
        ensures { result ≡ ends_before self.now i j }
    {
        !sets::contains(self.variant.preds[j], i) || self.ends_by(i, j)
    }

    // All that are before j end by its start.
    fn after_all(&self, j: usize) -> bool
        requires { j < most_acts }
        ensures { result ≡ after_all self.now j }
    {
        (0..self.tables.acts).all(|i| self.ends_before(i, j))
    }

    fn order_kept(&self) -> bool
        ensures { result ≡ order_kept self.now }
    {
        (0..self.tables.acts).all(|j| self.after_all(j))
    }

    // Activity i is present, and it runs on a tick: it has started, and has not ended.
    fn runs_at(&self, tick: u32, i: usize) -> bool
        requires { i < most_acts }
        ensures { result ≡ runs_at self.now tick i }
    {
        sets::contains(self.variant.present, i)
            && self.starts[i] <= tick
            && !is_over(self.starts[i], self.tables.activity[i].duration, tick)
    }

    // The units of resource r that are held on a tick.
    fn held_at(&self, tick: u32, r: usize) -> u32
        requires { r < most_resources }
        ensures { result ≡ held_at self.now tick r }
    {
        let mut held: u32 = 0;
        for i in 0..self.tables.acts {
            if self.runs_at(tick, i) {
                held += u32::from(self.tables.activity[i].units[r]);
            }
        }
        held
    }

    // Of every resource the units that are held on a tick are within its capacity.
    fn within_at(&self, tick: u32) -> bool
        ensures { result ≡ within_at self.now tick }
    {
        let tables = self.tables;
        (0..tables.resources).all(|r| self.held_at(tick, r) <= u32::from(tables.capacity[r]))
    }

    // So it is at every start. That is enough: between two starts no more units are held.
    fn within_all(&self) -> bool
        ensures { result ≡ within_all self.now }
    {
        (0..self.tables.acts).all(|j| self.within_at(self.starts[j]))
    }
}

// Yes exactly if the timetable is a session of the variant of the plan in tables, whatever its numbers are.
pub fn is_session(tables: &Tables, x: &Variant, starts: &[u32; MOST_ACTS]) -> bool
    requires { Ranged tables.now }
    ensures { (w : Term) → OrderOf w x.now.present x.now.preds
        → result ≡ is_session (plan_of tables.now) w starts.now }
{
    let candidate = Candidate {
        tables,
        variant: x,
        starts,
    };
    candidate.marks_right() && candidate.order_kept() && candidate.within_all()
}
