// Feasible and active, by definition. A session under way has a start for some of the activities of its variant;
// the others are absent.
ghost use Rattle.std.specs.Prelude.{◌<◌};

use crate::ABSENT;
use crate::rules::{Relation, Rules};
use crate::unit::multiples;
use plain::{ACTS, Activity, RESOURCES};

#[derive(Clone, Copy)]
pub struct Session<'a> {
    pub rules: &'a Rules<'a>,
    pub starts: &'a [u32; ACTS],
}

// The end of an activity that starts at a tick. It may be past what a start can be.
fn end(start: u32, activity: &Activity) -> u64 {
    u64::from(start) + u64::from(activity.duration)
}

impl<'a> Session<'a> {
    // May activity i start at a tick by precedence, the others as they stand?
    fn is_in_order(&self, i: usize, tick: u32) -> bool
        requires { i < ACTS }
    {
        let plan = self.rules.plan;
        let starts = self.starts;
        for (j, start) in starts.iter().take(plan.acts).enumerate() {
            if *start != ABSENT {
                let is_in_order = match self.rules.relations.of[i][j] {
                    Relation::Free => true,
                    Relation::Before => end(tick, &plan.activity[i]) <= u64::from(*start),
                    Relation::After => end(*start, &plan.activity[j]) <= u64::from(tick),
                };
                if !is_in_order {
                    return false;
                }
            }
        }
        true
    }

    // Does activity j run on a tick?
    fn runs(&self, j: usize, tick: u32) -> bool
        requires { j < ACTS }
    {
        let start = self.starts[j];
        let activity = &self.rules.plan.activity[j];
        start != ABSENT && start <= tick && u64::from(tick) < end(start, activity)
    }

    // The units of a resource that the others than activity i hold on a tick.
    fn held(&self, i: usize, tick: u32, resource: usize) -> u32
        requires { resource < RESOURCES }
    {
        let plan = self.rules.plan;
        let mut sum = 0u32;
        for (j, activity) in plan.activity.iter().take(plan.acts).enumerate() {
            if j != i && self.runs(j, tick) {
                sum = sum.saturating_add(activity.units[resource]);
            }
        }
        sum
    }

    // Are as many units of a resource left on a tick as activity i holds?
    fn has_units(&self, i: usize, tick: u32, resource: usize) -> bool
        requires { (i < ACTS) × (resource < RESOURCES) }
    {
        let plan = self.rules.plan;
        let own = plan.activity[i].units[resource];
        own == 0 || own.saturating_add(self.held(i, tick, resource)) <= plan.capacity[resource]
    }

    // Is there room for activity i on a tick, the others as they stand?
    fn has_room(&self, i: usize, tick: u32) -> bool
        requires { i < ACTS }
    {
        (0..RESOURCES).all(|resource| self.has_units(i, tick, resource))
    }

    // Is there room for activity i from a tick to its end? On no tick but those on which another one starts are more
    // units held than on the tick before.
    fn has_room_from(&self, i: usize, tick: u32) -> bool
        requires { i < ACTS }
    {
        let end = end(tick, &self.rules.plan.activity[i]);
        for start in self.starts {
            let is_inside = *start != ABSENT && tick < *start && u64::from(*start) < end;
            if is_inside && !self.has_room(i, *start) {
                return false;
            }
        }
        self.has_room(i, tick)
    }

    // May activity i start at a tick, the others as they stand?
    pub fn fits(&self, i: usize, tick: u32) -> bool
        requires { i < ACTS }
    {
        self.is_in_order(i, tick) && self.has_room_from(i, tick)
    }

    // May each activity start where it does, the others as they stand?
    pub fn is_feasible(&self) -> bool {
        let starts = self.starts;
        let mut starts = starts.iter().enumerate();
        starts.all(|(i, start)| *start == ABSENT || self.fits(i, *start))
    }

    // May activity i start sooner, the others unchanged? If so it may at a multiple of the unit.
    fn is_movable(&self, i: usize, unit: u32) -> bool
        requires { i < ACTS }
    {
        let start = self.starts[i];
        start != ABSENT && (0..multiples(unit, start)).any(|k| self.fits(i, k.saturating_mul(unit)))
    }

    pub fn is_active(&self, unit: u32) -> bool {
        !(0..ACTS).any(|i| self.is_movable(i, unit))
    }
}
