// A plan file line by line, with the refusals that rest on the file's length or on a line.
use crate::line::{Lines, VALUES};
use crate::refusal::Refusal;
use crate::tables::{Activity, Kind, Node, Plan};
use crate::{ACTS, LONGEST, NODES, RESOURCES};

const BYTES: usize = 2175;

// The most units of a resource, and the most that an activity holds of one.
const UNITS: u32 = 15;

#[derive(Clone, Copy, PartialEq, Eq, Debug)]
enum Edition {
    First,
    Second,
}

fn edition_of(lines: &mut Lines) -> Result<Edition, Refusal> {
    let [edition, ..] = lines.listed(b"plan=", 1)?;
    match edition {
        1 => Ok(Edition::First),
        2 => Ok(Edition::Second),
        _ => Err(Refusal::Range { line: lines.line() }),
    }
}

// A line of one count, from 1 to the most there may be.
fn count(lines: &mut Lines, key: &[u8], most: u32) -> Result<u32, Refusal> {
    let [count, ..] = lines.listed(key, 1)?;
    if count == 0 || most < count {
        return Err(Refusal::Range { line: lines.line() });
    }
    Ok(count)
}

// From edition 2 on each resource has a line with its units; before, it has one unit.
fn capacities(
    lines: &mut Lines,
    edition: Edition,
    resources: usize,
) -> Result<[u32; RESOURCES], Refusal> {
    let mut all = [1; RESOURCES];
    if edition == Edition::Second {
        for capacity in all.iter_mut().take(resources) {
            *capacity = count(lines, b"cap=", UNITS)?;
        }
    }
    Ok(all)
}

// An activity's line in edition 1: its resource, of which it holds one unit, and its duration. None where there is no
// such resource.
fn of_resource(values: [u32; VALUES], resources: usize) -> Option<Activity> {
    let [resource, duration, ..] = values;
    let mut units = [0; RESOURCES];
    *units.get_mut(..resources)?.get_mut(resource as usize)? = 1;
    Some(Activity { duration, units })
}

fn activity_of(lines: &mut Lines, edition: Edition, resources: usize) -> Result<Activity, Refusal> {
    match edition {
        Edition::First => {
            let values = lines.listed(b"act=", 2)?;
            of_resource(values, resources).ok_or(Refusal::Range { line: lines.line() })
        }
        Edition::Second => {
            let values = lines.listed(b"act=", resources.saturating_add(1))?;
            let [duration, ..] = values;
            let mut units = [0; RESOURCES];
            units.copy_from_slice(&values[1..]);
            Ok(Activity { duration, units })
        }
    }
}

// An activity's line. More units than its resource has are tested last.
fn activity(
    lines: &mut Lines,
    edition: Edition,
    resources: usize,
    capacity: &[u32; RESOURCES],
) -> Result<Activity, Refusal> {
    let activity = activity_of(lines, edition, resources)?;
    let line = lines.line();
    let has_length = (1..=LONGEST).contains(&activity.duration);
    if !has_length || activity.units.iter().any(|&units| UNITS < units) {
        return Err(Refusal::Range { line });
    }
    let mut held = activity.units.iter().zip(capacity);
    if held.any(|(units, capacity)| capacity < units) {
        return Err(Refusal::OverCapacity { line });
    }
    Ok(activity)
}

// A node's line: an activity has its number, and a group how many children it has. One is too few, and is tested last.
fn node(lines: &mut Lines, acts: u32) -> Result<Node, Refusal> {
    let (kind, number) = lines.node()?;
    let line = lines.line();
    let fits = match kind {
        Kind::Act => number < acts,
        _ => 0 < number && number < NODES as u32,
    };
    if !fits {
        return Err(Refusal::Range { line });
    }
    if kind != Kind::Act && number == 1 {
        return Err(Refusal::LoneChild { line });
    }
    Ok(Node::new(kind, number))
}

// The plan of a file, its nodes not yet joined.
pub fn read(file: &[u8]) -> Result<Plan, Refusal> {
    if file.is_empty() || BYTES < file.len() {
        return Err(Refusal::Length);
    }
    let mut lines = Lines::new(file);
    let edition = edition_of(&mut lines)?;
    let resources = count(&mut lines, b"res=", RESOURCES as u32)? as usize;
    let capacity = capacities(&mut lines, edition, resources)?;
    let mut plan = Plan::new(capacity);
    let acts = count(&mut lines, b"acts=", ACTS as u32)?;
    plan.acts = acts as usize;
    for a in plan.activity.iter_mut().take(acts as usize) {
        *a = activity(&mut lines, edition, resources, &capacity)?;
    }
    let nodes = count(&mut lines, b"nodes=", NODES as u32)? as usize;
    plan.nodes = nodes;
    for n in plan.node.iter_mut().take(nodes) {
        *n = node(&mut lines, acts)?;
    }
    lines.end()?;
    Ok(plan)
}
