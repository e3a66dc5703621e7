// Reads the nodes of a plan once: are they one whole term, and has one of its variants an activity twice?
#![tactic(auto)]

ghost use Rattle.base.specs.Lists.{every};
ghost use Rattle.plan.specs.Plan.{is_node};
ghost use Rattle.sets.specs.Sets.{most};
ghost use Rattle.std.specs.Prelude.{◌≡◌, true};
ghost use Rattle.term.specs.Term.{term_of};
ghost use Rattle.term_reader.specs.Reading.{InRange, reading_of};
ghost use Rattle.term_reader.specs.Walk.{joined_of, TermRead, ChildrenRead};

use plan::Node;

// What a reader found: the node after what it read, its activities, and whether one of its variants has an activity
// twice.
#[derive(Clone, Copy)]
struct Walk {
    next: usize,
    set: u32,
    clash: bool,
}

// A child, and the children after it: all of them done, or one of them.
fn joined(first: Walk, rest: Walk, all: bool) -> Walk
    ensures { result ≡ joined_of all first rest }
{
    let met = sets::meets(first.set, rest.set);
    Walk {
        next: rest.next,
        set: sets::union(first.set, rest.set),
        clash: first.clash || (all && met) || rest.clash,
    }
}

// The term that begins at a node.
#[cycle(children_term)]
fn term(nodes: &[Node], at: usize) -> Option<Walk>
    requires { every (is_node most) nodes.now ≡ true }
    ensures { TermRead nodes.now at result }
{
    match *nodes.get(at)? {
        Node::Act(i) => Some(Walk {
            next: at + 1,
            set: sets::single(usize::from(i)),
            clash: false,
        }),
        Node::Seq(k) | Node::Pll(k) => children(nodes, at + 1, k, true),
        Node::Xor(k) => children(nodes, at + 1, k, false),
    }
}

// The children that begin at a node, `left` of them.
#[cycle(children_term)]
fn children(nodes: &[Node], at: usize, left: u8, all: bool) -> Option<Walk>
    requires { every (is_node most) nodes.now ≡ true }
    ensures { ChildrenRead nodes.now at left all result }
{
    if left == 0 {
        return Some(Walk {
            next: at,
            set: 0,
            clash: false,
        });
    }
    let first = term(nodes, at)?;
    let rest = children(nodes, first.next, left - 1, all)?;
    Some(joined(first, rest, all))
}

// None where the nodes are not one whole term; else whether one of its variants has an activity twice.
pub fn read_term(nodes: &[Node]) -> Option<bool>
    requires { InRange nodes.now }
    ensures { result ≡ reading_of (term_of nodes.now) }
{
    let w = term(nodes, 0)?;
    (w.next == nodes.len()).then_some(w.clash)
}
