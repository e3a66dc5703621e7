// Writes the text of a plan file into a lent area, in one pass. A byte that would stand past the area's end is
// counted and not stored, so that the pass over an empty area measures the text. Places are required to be far below
// the largest number, so that no sum wraps.
#![tactic(auto)]

ghost use Rattle.std.specs.Prelude.{◌+◌, ◌≤◌, ◌<◌, ◌^◌, cond, ◌≡◌, [], ◌∷◌, length, map};
ghost use Rattle.plan.specs.Limits.{says_units, most_digits, most_resources, most_acts, most_nodes, counts_form, act_form};
ghost use Rattle.plan.specs.Limits.{node_form};
ghost use Rattle.plan.specs.Plan.{own_resource, act_values, letter_of, value_of, activity_in, plan_of};
ghost use Rattle.format.specs.Lines.{numeral, filled};
ghost use Rattle.format.specs.Text.{capacity_lines, act_lines, node_lines, text};
ghost use Rattle.writer.specs.Wrote.{Wrote, WrotePiece, LettersFit, HoldsText};

use plan::{Activity, Node, Tables};

// A line that is written as far as `at`, with the values that are next.
#[derive(Clone, Copy)]
struct Line {
    at: usize,
    first: u16,
    second: u16,
}

fn put_byte(area: &mut [u8], at: usize, b: u8) -> usize
    requires { at + 1 < 2 ^ 64 }
    ensures { Wrote area.old at (b ∷ []) result area.new }
{
    if at < area.len() {
        area[at] = b;
    }
    at + 1
}

fn digit_of(n: u16) -> u8
    requires { n < 10 }
    ensures { result ≡ 48 + n }
{
    b'0' + n as u8
}

// The decimal digits of a number, the most significant first.
fn put_value(area: &mut [u8], at: usize, n: u16) -> usize
    requires { at < 10000 }
    ensures { Wrote area.old at (numeral most_digits n) result area.new }
{
    if n < 10 {
        return put_byte(area, at, digit_of(n));
    }
    let next = put_value(area, at, n / 10);
    put_byte(area, next, digit_of(n % 10))
}

// What a byte of a form stands for: `#` for a value, `@` for a letter, any other for itself.
fn put_piece(area: &mut [u8], line: Line, b: u8) -> Line
    requires { (line.at < 10000) × (b ≡ 64 → line.first < 256) }
    ensures { WrotePiece area.old line b result area.new }
{
    let at = line.at;
    let first = line.first;
    if b == b'#' {
        return Line {
            at: put_value(area, at, first),
            first: line.second,
            second: 0,
        };
    }
    if b == b'@' {
        return Line {
            at: put_byte(area, at, first as u8),
            first: line.second,
            second: 0,
        };
    }
    Line {
        at: put_byte(area, at, b),
        first,
        second: line.second,
    }
}

fn put_line(area: &mut [u8], at: usize, form: &[u8], first: u16, second: u16) -> usize
    requires { (at < 9000) × (length form.now < 100) × LettersFit form.now first second }
    ensures { Wrote area.old at (filled form.now (first ∷ second ∷ [])) result area.new }
{
    let mut line = Line { at, first, second };
    for b in form {
        line = put_piece(area, line, *b);
    }
    line.at
}

fn capacity_lines(area: &mut [u8], at: usize, capacities: &[u8]) -> usize
    requires { (at < 100) × (length capacities.now ≤ most_resources) }
    ensures { Wrote area.old at (capacity_lines capacities.now) result area.new }
{
    let mut next = at;
    for units in capacities {
        next = put_line(area, next, &plan::CAPACITY_FORM, u16::from(*units), 0);
    }
    next
}

// The capacities, where the edition has lines for them.
fn put_capacities(area: &mut [u8], at: usize, edition: u16, capacities: &[u8]) -> usize
    requires { (at < 100) × (length capacities.now ≤ most_resources) }
    ensures { Wrote area.old at (cond (says_units edition) (capacity_lines capacities.now) []) result area.new }
{
    if plan::says_units(edition) {
        return capacity_lines(area, at, capacities);
    }
    at
}

// The first resource of which units are held.
fn own_resource(units: &[u8]) -> u16
    requires { length units.now ≤ most_resources }
    ensures { result ≡ own_resource units.now }
{
    units
        .iter()
        .position(|held| *held != 0)
        .unwrap_or(units.len()) as u16
}

fn put_counts(area: &mut [u8], at: usize, units: &[u8]) -> usize
    requires { (at < 8000) × (length units.now ≤ most_resources) }
    ensures { Wrote area.old at (filled (counts_form (length units.now)) units.now) result area.new }
{
    let mut next = at;
    for held in units {
        next = put_line(area, next, &plan::COUNT_FORM, u16::from(*held), 0);
    }
    next
}

fn put_activity(
    area: &mut [u8],
    at: usize,
    edition: u16,
    resources: usize,
    activity: &Activity,
) -> usize
    requires { (at < 7000) × (resources ≤ most_resources) }
    ensures { Wrote area.old at
        (filled (act_form edition resources) (act_values edition (activity_in resources activity.now)))
        result area.new }
{
    let units = &activity.units[..resources];
    if plan::says_units(edition) {
        let front = put_line(area, at, &plan::DURATION_FORM, activity.duration, 0);
        let next = put_counts(area, front, units);
        return put_line(area, next, &plan::LINE_END, 0, 0);
    }
    let own = own_resource(units);
    put_line(area, at, &plan::ACT_FORM, own, activity.duration)
}

fn put_activities(
    area: &mut [u8],
    at: usize,
    edition: u16,
    resources: usize,
    activities: &[Activity],
) -> usize
    requires { (at < 600) × (resources ≤ most_resources) × (length activities.now ≤ most_acts) }
    ensures { Wrote area.old at
        (act_lines edition resources (map (activity_in resources) activities.now))
        result area.new }
{
    let mut next = at;
    for activity in activities {
        next = put_activity(area, next, edition, resources, activity);
    }
    next
}

fn put_node(area: &mut [u8], at: usize, node: Node) -> usize
    requires { at < 9000 }
    ensures { Wrote area.old at (filled node_form (letter_of node ∷ value_of node ∷ [])) result area.new }
{
    put_line(
        area,
        at,
        &plan::NODE_FORM,
        u16::from(node.letter()),
        u16::from(node.number()),
    )
}

fn put_nodes(area: &mut [u8], at: usize, nodes: &[Node]) -> usize
    requires { (at < 6000) × (length nodes.now ≤ most_nodes) }
    ensures { Wrote area.old at (node_lines nodes.now) result area.new }
{
    let mut next = at;
    for node in nodes {
        next = put_node(area, next, *node);
    }
    next
}

fn put_text(area: &mut [u8], tables: &Tables) -> usize
    ensures { Wrote area.old 0 (text (plan_of tables.now)) result area.new }
{
    let edition = tables.edition;
    let capacities = tables.capacities();
    let resources = capacities.len();
    let activities = tables.activities();
    let nodes = tables.all_nodes();
    let mut at = put_line(area, 0, &plan::EDITION_FORM, edition, 0);
    at = put_line(area, at, &plan::RESOURCES_FORM, resources as u16, 0);
    at = put_capacities(area, at, edition, capacities);
    at = put_line(area, at, &plan::ACTS_FORM, activities.len() as u16, 0);
    at = put_activities(area, at, edition, resources, activities);
    at = put_line(area, at, &plan::NODES_FORM, nodes.len() as u16, 0);
    put_nodes(area, at, nodes)
}

// The length of the text of a plan.
pub fn text_length(tables: &Tables) -> usize
    ensures { result ≡ length (text (plan_of tables.now)) }
{
    let mut none = [0u8; 0];
    put_text(&mut none, tables)
}

// The text of a plan at the front of the area, and its length. What stands after it in the area stays.
pub fn write_text(tables: &Tables, area: &mut [u8]) -> usize
    requires { length (text (plan_of tables.now)) ≤ length area.old }
    ensures { HoldsText (text (plan_of tables.now)) area.old area.new result }
{
    put_text(area, tables)
}
