// One variant of an accepted plan: which activities it has, and which stand before each of them.
#![tactic(auto)]

ghost use Rattle.std.specs.Prelude.{◌≡◌, ◌<◌};
ghost use Rattle.sets.specs.Sets.{most};
ghost use Rattle.term.specs.Term.{Term, act};
ghost use Rattle.term.specs.Variants.{activities};
ghost use Rattle.variant.specs.Precedence.{precedes};
ghost use Rattle.variant.specs.Project.{variant_at};
ghost use Rattle.variant.specs.Tables.{OrderOf};
ghost use Rattle.judge.specs.Campaign.{HoldsVariant};
ghost use Rattle.precedence.specs.Order.{OneTerm, Ordered};
ghost use Rattle.precedence.specs.Walk.{after_of, TermAt, ForestAt, Low, OrderJoined, OrderRead, OrderReadAll};

use judge::Campaign;
use plan::{MOST_ACTS, Node};
use variant::Variant;

// What a reader found: the node after what it read, and its activities.
#[derive(Clone, Copy)]
struct Walk {
    next: usize,
    set: u32,
}

// What stands before the children after a child.
fn after(before: u32, child: u32, in_sequence: bool) -> u32
    ensures { result ≡ after_of in_sequence before child }
{
    if in_sequence {
        sets::union(before, child)
    } else {
        before
    }
}

// The walk of one activity, whose node stands before `next`.
fn activity(i: usize, next: usize, before: u32, preds: &mut [u32; MOST_ACTS]) -> Walk
    requires { (i < most) × Low before preds.old }
    ensures { OrderJoined (activities (act i)) (precedes (act i)) next before preds.old preds.new result }
{
    preds[i] = sets::union(preds[i], before);
    Walk {
        next,
        set: sets::single(i),
    }
}

// The term that begins at a node.
#[cycle(children_term)]
fn term(nodes: &[Node], at: usize, before: u32, preds: &mut [u32; MOST_ACTS]) -> Walk
    requires { TermAt nodes.now at × Low before preds.old }
    ensures { OrderRead nodes.now at before preds.old preds.new result }
{
    let node = nodes[at];
    match node {
        Node::Act(i) => activity(usize::from(i), at + 1, before, preds),
        Node::Seq(k) => children(nodes, at + 1, k, before, true, preds),
        Node::Pll(k) | Node::Xor(k) => children(nodes, at + 1, k, before, false, preds),
    }
}

// The children that begin at a node, `left` of them.
#[cycle(children_term)]
fn children(
    nodes: &[Node],
    at: usize,
    left: u8,
    before: u32,
    in_sequence: bool,
    preds: &mut [u32; MOST_ACTS],
) -> Walk
    requires { ForestAt nodes.now at left × Low before preds.old }
    ensures { OrderReadAll nodes.now at left before in_sequence preds.old preds.new result }
{
    if left == 0 {
        return Walk { next: at, set: 0 };
    }
    let first = term(nodes, at, before, preds);
    let before_rest = after(before, first.set, in_sequence);
    let rest = children(nodes, first.next, left - 1, before_rest, in_sequence, preds);
    Walk {
        next: rest.next,
        set: sets::union(first.set, rest.set),
    }
}

// The order of the term that the nodes are.
fn ordered(nodes: &[Node]) -> Variant
    requires { OneTerm nodes.now }
    ensures { Ordered nodes.now result }
{
    let mut preds = [0; MOST_ACTS];
    let w = term(nodes, 0, 0, &mut preds);
    Variant {
        present: w.set,
        preds,
    }
}

// Variant v of an accepted plan in tables.
pub fn tabled(campaign: &Campaign, v: u32) -> Variant
    requires { (t : Term) × HoldsVariant campaign.now t v }
    ensures { (t : Term) → HoldsVariant campaign.now t v
        → OrderOf (variant_at t v) result.present result.preds }
{
    let picked = pick::pick(campaign.tables.all_nodes(), &campaign.spans, v);
    ordered(picked.all_nodes())
}
