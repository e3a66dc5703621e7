// Whether the values of a line are in their ranges.
#![tactic(auto)]

ghost use Rattle.std.specs.Prelude.{[], ◌∷◌, ◌≡◌, ◌≤◌};
ghost use Rattle.std.specs.Bool.{then_some};
ghost use Rattle.plan.specs.Limits.{between, most_acts, is_duration, is_unit_count};
ghost use Rattle.plan.specs.Plan.{activity_of, is_activity, is_within, node_of};
ghost use Rattle.format.specs.Parse.{is_ranged, is_plural};

use plan::Node;

// Limits of the plan file in the type of a line's values.
const DURATION: u32 = plan::LONGEST_DURATION as u32;

const CHILDREN: u32 = plan::MOST_CHILDREN as u32;

pub fn in_range(low: u32, high: u32, n: u32) -> bool
    ensures { result ≡ between low high n }
{
    low <= n && n <= high
}

pub fn is_duration(n: u32) -> bool
    ensures { result ≡ is_duration n }
{
    in_range(1, DURATION, n)
}

// An activity of the first edition, by its resource and its duration.
pub fn is_activity(resources: u32, resource: u32, duration: u32) -> bool
    ensures { result ≡ is_activity 1 resources (activity_of 1 resources (resource ∷ duration ∷ [])) }
{
    resource < resources && is_duration(duration)
}

// A count of units where the edition has them.
pub fn is_unit_count(n: u32) -> bool
    ensures { result ≡ is_unit_count 2 n }
{
    n <= plan::MOST_UNITS
}

// No count is above its resource's capacity.
pub fn is_within(capacities: &[u8], units: &[u8]) -> bool
    ensures { result ≡ is_within capacities.now units.now }
{
    capacities
        .iter()
        .zip(units)
        .all(|(capacity, count)| count <= capacity)
}

// A number in its range, a group of one let through.
pub fn is_ranged(acts: u32, letter: u32, number: u32) -> bool
    ensures { result ≡ is_ranged acts (node_of letter number) }
{
    if letter == 97 {
        number < acts
    } else {
        in_range(1, CHILDREN, number)
    }
}

// The node of such a number.
pub fn node_in_range(acts: u32, letter: u32, number: u32) -> Option<Node>
    requires { acts ≤ most_acts }
    ensures { result ≡ then_some (is_ranged acts (node_of letter number)) (node_of letter number) }
{
    if is_ranged(acts, letter, number) {
        Some(Node::of(letter, number as u8))
    } else {
        None
    }
}

// No group of one.
pub fn is_plural(node: Node) -> bool
    ensures { result ≡ is_plural node }
{
    match node {
        Node::Act(_) => true,
        Node::Seq(children) | Node::Pll(children) | Node::Xor(children) => children != 1,
    }
}
