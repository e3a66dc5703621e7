// Reads the text of a plan file into tables, in one pass.
#![tactic(auto)]

ghost use Rattle.std.specs.Prelude.{◌≡◌, ◌+◌, ◌^◌, ◌≤◌, ◌<◌, length};
ghost use Rattle.plan.specs.Limits.{between, longest, most_resources};
ghost use Rattle.parser.specs.Answer.{Answers};
ghost use Rattle.parser.specs.Counts.{Kept, Follows};

use line_reader::Line;
use plan::{Activity, MOST_ACTS, MOST_NODES, MOST_RESOURCES, Node, Refusal, Tables};

// Limits of the plan file in the type of a line's values.
const RESOURCES: u32 = MOST_RESOURCES as u32;

const ACTS: u32 = MOST_ACTS as u32;

const NODES: u32 = MOST_NODES as u32;

// The lines that are left: the number of the next, and the bytes from there on. Each line has some bytes, so that its
// number fits.
#[derive(Drop)]
struct Lines<'a> {
    number: u64,
    rest: &'a [u8],
    ghost numbers_fit: { number + length rest.now < 2 ^ 64 },
}

// The line of an activity of a later edition: its duration, its counts of units, and the bytes that follow.
#[derive(Clone, Copy)]
struct CountedLine<'a> {
    duration: u32,
    counts: [u32; MOST_RESOURCES],
    rest: &'a [u8],
}

fn read_counted<'a>(text: &'a [u8], resources: usize) -> Option<CountedLine<'a>>
    requires { resources ≤ most_resources }
    ensures { Follows resources text.now result }
{
    let front = line_reader::read_line(text, &plan::DURATION_FORM)?;
    let mut counts = [0; MOST_RESOURCES];
    let mut rest = front.rest;
    for count in &mut counts[..resources] {
        let line = line_reader::read_line(rest, &plan::COUNT_FORM)?;
        *count = line.second;
        rest = line.rest;
    }
    let end = line_reader::read_line(rest, &plan::LINE_END)?;
    Some(CountedLine {
        duration: front.second,
        counts,
        rest: end.rest,
    })
}

// Counts as units, where each is in its range.
fn units_of(counts: &[u32]) -> Option<[u8; MOST_RESOURCES]>
    requires { length counts.now ≤ most_resources }
    ensures { Kept counts.now result }
{
    let mut units = [0; MOST_RESOURCES];
    for i in 0..counts.len() {
        if !ranges::is_unit_count(counts[i]) {
            return None;
        }
        units[i] = counts[i] as u8;
    }
    Some(units)
}

impl<'a> Lines<'a> {
    ghost use Rattle.std.specs.Prelude.{◌≡◌, ◌+◌, ◌≤◌, ◌<◌, length, take, map, IfOk};
    ghost use Rattle.plan.specs.Limits.{between, most_resources, most_acts, most_nodes, is_capacity, capacity_form};
    ghost use Rattle.plan.specs.Plan.{activity_in};
    ghost use Rattle.format.specs.Lines.{slots};
    ghost use Rattle.format.specs.Parse.{the_lines, the_end, a_count, the_capacities, an_activity, a_node};
    ghost use Rattle.parser.specs.Steps.{Takes, Gives, ranged_activity};

    // Past a line, which ends where `rest` begins.
    fn go_on(&mut self, rest: &'a [u8])
        requires { length rest.now < length self.old.rest.now }
        ensures { (self.new.number ≡ self.old.number + 1) × (self.new.rest.now ≡ rest.now) }
    {
        self.rest = rest;
        self.number += 1;
    }

    // The next line, by its form.
    fn line(&mut self, form: &[u8]) -> Result<Line<'a>, Refusal>
        requires { 0 < length form.now }
        ensures { Takes form.now self.old result self.new }
    {
        let line = line_reader::read_line(self.rest, form).ok_or(Refusal::Form(self.number))?;
        self.go_on(line.rest);
        Ok(line)
    }

    // A line of one value.
    fn count(&mut self, form: &[u8], low: u32, high: u32) -> Result<u32, Refusal>
        requires { slots form.now ≡ 1 }
        ensures read { Gives (a_count form.now (between low high)) (λ n. n) self.old result self.new }
        ensures most { IfOk result (λ n. n ≤ high) }
    {
        let number = self.number;
        let value = self.line(form)?.second;
        if ranges::in_range(low, high, value) {
            Ok(value)
        } else {
            Err(Refusal::Range(number))
        }
    }

    fn capacity_lines(&mut self, resources: usize) -> Result<[u8; MOST_RESOURCES], Refusal>
        requires { resources ≤ most_resources }
        ensures { Gives (the_lines resources (a_count capacity_form (is_capacity 2))) (take resources)
            self.old result self.new }
    {
        let mut table = [0; MOST_RESOURCES];
        for capacity in &mut table[..resources] {
            *capacity = self.count(&plan::CAPACITY_FORM, 1, plan::MOST_UNITS)? as u8;
        }
        Ok(table)
    }

    // The capacities: one unit each where the edition has no lines for them.
    fn capacities(
        &mut self,
        edition: u16,
        resources: usize,
    ) -> Result<[u8; MOST_RESOURCES], Refusal>
        requires { resources ≤ most_resources }
        ensures { Gives (the_capacities edition resources) (take resources) self.old result self.new }
    {
        if plan::says_units(edition) {
            self.capacity_lines(resources)
        } else {
            Ok([1; MOST_RESOURCES])
        }
    }

    // An activity of the first edition, by its resource.
    fn own(&mut self, resources: usize) -> Result<Activity, Refusal>
        requires { resources ≤ most_resources }
        ensures { Gives (ranged_activity 1 resources) (activity_in resources) self.old result self.new }
    {
        let number = self.number;
        let line = self.line(&plan::ACT_FORM)?;
        if !ranges::is_activity(resources as u32, line.first, line.second) {
            return Err(Refusal::Range(number));
        }
        let mut units = [0; MOST_RESOURCES];
        units[line.first as usize] = 1;
        Ok(Activity {
            duration: line.second as u16,
            units,
        })
    }

    // An activity of a later edition, by its counts of units.
    fn counted(&mut self, resources: usize) -> Result<Activity, Refusal>
        requires { resources ≤ most_resources }
        ensures { Gives (ranged_activity 2 resources) (activity_in resources) self.old result self.new }
    {
        let number = self.number;
        let line = read_counted(self.rest, resources).ok_or(Refusal::Form(number))?;
        self.go_on(line.rest);
        if !ranges::is_duration(line.duration) {
            return Err(Refusal::Range(number));
        }
        let units = units_of(&line.counts[..resources]).ok_or(Refusal::Range(number))?;
        Ok(Activity {
            duration: line.duration as u16,
            units,
        })
    }

    // An activity whose values are in their ranges.
    fn in_ranges(&mut self, edition: u16, resources: usize) -> Result<Activity, Refusal>
        requires { resources ≤ most_resources }
        ensures { Gives (ranged_activity edition resources) (activity_in resources) self.old result self.new }
    {
        if plan::says_units(edition) {
            self.counted(resources)
        } else {
            self.own(resources)
        }
    }

    // An activity that is also within the capacities.
    fn activity(&mut self, edition: u16, capacities: &[u8]) -> Result<Activity, Refusal>
        requires { length capacities.now ≤ most_resources }
        ensures { Gives (an_activity edition capacities.now) (activity_in (length capacities.now))
            self.old result self.new }
    {
        let number = self.number;
        let resources = capacities.len();
        let activity = self.in_ranges(edition, resources)?;
        if ranges::is_within(capacities, &activity.units[..resources]) {
            Ok(activity)
        } else {
            Err(Refusal::OverCapacity(number))
        }
    }

    fn activities(
        &mut self,
        edition: u16,
        capacities: &[u8],
        acts: usize,
    ) -> Result<[Activity; MOST_ACTS], Refusal>
        requires { (length capacities.now ≤ most_resources) × (acts ≤ most_acts) }
        ensures { Gives (the_lines acts (an_activity edition capacities.now))
            (λ table. map (activity_in (length capacities.now)) (take acts table)) self.old result self.new }
    {
        let mut table = [Activity {
            duration: 0,
            units: [0; MOST_RESOURCES],
        }; MOST_ACTS];
        for activity in &mut table[..acts] {
            *activity = self.activity(edition, capacities)?;
        }
        Ok(table)
    }

    fn node(&mut self, acts: u32) -> Result<Node, Refusal>
        requires { acts ≤ most_acts }
        ensures { Gives (a_node acts) (λ n. n) self.old result self.new }
    {
        let number = self.number;
        let line = self.line(&plan::NODE_FORM)?;
        let letter = line.first;
        let node = ranges::node_in_range(acts, letter, line.second).ok_or(Refusal::Range(number))?;
        if ranges::is_plural(node) {
            Ok(node)
        } else {
            Err(Refusal::GroupOfOne(number))
        }
    }

    fn nodes(&mut self, acts: u32, nodes: usize) -> Result<[Node; MOST_NODES], Refusal>
        requires { (acts ≤ most_acts) × (nodes ≤ most_nodes) }
        ensures { Gives (the_lines nodes (a_node acts)) (take nodes) self.old result self.new }
    {
        let mut table = [Node::Act(0); MOST_NODES];
        for node in &mut table[..nodes] {
            *node = self.node(acts)?;
        }
        Ok(table)
    }

    // Nothing may follow the last line.
    fn end(&mut self) -> Result<(), Refusal>
        ensures { Gives the_end (λ u. u) self.old result self.new }
    {
        if self.rest.is_empty() {
            Ok(())
        } else {
            Err(Refusal::Form(self.number))
        }
    }
}

// A plan file has some bytes, and not too many.
fn has_length(size: usize) -> bool
    ensures { result ≡ between 1 longest size }
{
    1 <= size && size <= plan::LONGEST
}

// The plan that a text holds, or the first reason against it.
pub fn parse_file(file: &[u8]) -> Result<Tables, Refusal>
    ensures { Answers file.now result }
{
    if !has_length(file.len()) {
        return Err(Refusal::Length);
    }
    let mut lines = Lines {
        number: 1,
        rest: file,
    };
    let edition = lines.count(&plan::EDITION_FORM, 1, plan::LAST_EDITION)? as u16;
    let resources = lines.count(&plan::RESOURCES_FORM, 1, RESOURCES)? as usize;
    let capacity = lines.capacities(edition, resources)?;
    let acts = lines.count(&plan::ACTS_FORM, 1, ACTS)?;
    let activity = lines.activities(edition, &capacity[..resources], acts as usize)?;
    let nodes = lines.count(&plan::NODES_FORM, 1, NODES)? as usize;
    let node = lines.nodes(acts, nodes)?;
    lines.end()?;
    Ok(Tables {
        edition,
        resources,
        capacity,
        acts: acts as usize,
        activity,
        nodes,
        node,
    })
}
