// The chosen term of a variant: an x is replaced by its pick, and an s in an s or a p in a p is dissolved. What is left
// stands in the order of the plan's nodes, which is prefix order again.
use crate::text::Writer;
use plain::{Kind, NODES, Node, Plan, Variant};

// Whether a node is kept, the kept node that its children come under, and how many kept children it has.
#[derive(Clone, Copy)]
struct Place {
    is_kept: bool,
    above: Option<usize>,
    children: u32,
}

// How many nodes are kept, and the place of each node.
#[derive(Clone, Copy)]
pub struct Term {
    nodes: u32,
    place: [Place; NODES],
}

// Is a node kept under that parent?
fn stays(p: &Plan, node: &Node, parent: Option<usize>) -> bool {
    if node.kind == Kind::Xor {
        return false;
    }
    let Some(parent) = parent.and_then(|i| p.node.get(i)) else {
        return true;
    };
    node.kind != parent.kind
}

impl Term {
    // The kept node that a node comes under.
    fn parent(&self, node: &Node) -> Option<usize> {
        self.place.get(node.parent?)?.above
    }

    fn add_child(&mut self, parent: Option<usize>) {
        if let Some(place) = parent.and_then(|i| self.place.get_mut(i)) {
            place.children = place.children.saturating_add(1);
        }
    }

    // A node that remains after the picks.
    fn add(&mut self, p: &Plan, i: usize, node: &Node) {
        let parent = self.parent(node);
        let is_kept = stays(p, node, parent);
        if is_kept {
            self.add_child(parent);
            self.nodes = self.nodes.saturating_add(1);
        }
        if let Some(place) = self.place.get_mut(i) {
            place.is_kept = is_kept;
            place.above = if is_kept { Some(i) } else { parent };
        }
    }
}

// The term of the nodes that remain after the picks.
pub fn chosen(p: &Plan, v: &Variant) -> Term {
    let none = Place {
        is_kept: false,
        above: None,
        children: 0,
    };
    let mut t = Term {
        nodes: 0,
        place: [none; NODES],
    };
    for (i, node) in p.node.iter().enumerate() {
        if v.remains[i] {
            t.add(p, i, node);
        }
    }
    t
}

// The lines of the nodes: an activity has its number, and a group how many children it has.
pub fn put(writer: &mut Writer, p: &Plan, t: &Term) {
    writer.line(b"nodes=", t.nodes);
    for (node, place) in p.node.iter().zip(&t.place) {
        if place.is_kept {
            let number = match node.kind {
                Kind::Act => node.number,
                _ => place.children,
            };
            writer.node(node.kind.letter(), number);
        }
    }
}
