// The tables of a plan.
use crate::{ACTS, NODES, RESOURCES};

#[derive(Clone, Copy)]
pub struct Activity {
    pub duration: u32,
    // the units that it holds of each resource
    pub units: [u32; RESOURCES],
}

// An activity, in sequence, in parallel, one of several.
#[derive(Clone, Copy, PartialEq, Eq, Debug)]
pub enum Kind {
    Act,
    Seq,
    Pll,
    Xor,
}

impl Kind {
    pub fn of_letter(letter: u8) -> Option<Kind> {
        match letter {
            b'a' => Some(Kind::Act),
            b's' => Some(Kind::Seq),
            b'p' => Some(Kind::Pll),
            b'x' => Some(Kind::Xor),
            _ => None,
        }
    }

    pub fn letter(self) -> u8 {
        match self {
            Kind::Act => b'a',
            Kind::Seq => b's',
            Kind::Pll => b'p',
            Kind::Xor => b'x',
        }
    }
}

#[derive(Clone, Copy)]
pub struct Node {
    pub kind: Kind,
    // of an activity its number, of a group how many children it has
    pub number: u32,
    // which node is its parent, and which of its parent's children it is; the root has no parent
    pub parent: Option<usize>,
    pub rank: u32,
    // how many children it has so far
    given: u32,
}

impl Node {
    pub fn new(kind: Kind, number: u32) -> Node {
        Node {
            kind,
            number,
            parent: None,
            rank: 0,
            given: 0,
        }
    }

    fn wants_children(&self) -> bool {
        self.kind != Kind::Act && self.given < self.number
    }
}

#[derive(Clone, Copy)]
pub struct Plan {
    // the units that each resource has
    pub capacity: [u32; RESOURCES],
    // how many activities and nodes there are, and each of them
    pub acts: usize,
    pub activity: [Activity; ACTS],
    pub nodes: usize,
    pub node: [Node; NODES],
}

impl Plan {
    // No activities and no nodes yet.
    pub fn new(capacity: [u32; RESOURCES]) -> Plan {
        let none = Activity {
            duration: 0,
            units: [0; RESOURCES],
        };
        Plan {
            capacity,
            acts: 0,
            activity: [none; ACTS],
            nodes: 0,
            node: [Node::new(Kind::Act, 0); NODES],
        }
    }

    // The last of the first so many nodes that still wants children.
    fn group(&self, nodes: usize) -> Option<usize> {
        let first = self.node.get(..nodes)?;
        first.iter().rposition(|node| node.wants_children())
    }

    // Puts a node under a parent.
    fn put_under(&mut self, i: usize, parent: usize) -> Option<()> {
        let group = self.node.get_mut(parent)?;
        let rank = group.given;
        group.given = rank.checked_add(1)?;
        let node = self.node.get_mut(i)?;
        node.parent = Some(parent);
        node.rank = rank;
        Some(())
    }

    // Gives each node its parent; None where the nodes are not one whole term. They come in prefix order, so each is a
    // child of the last group before it that still wants children.
    pub fn join(&mut self) -> Option<()> {
        for i in 0..self.nodes {
            match self.group(i) {
                Some(parent) => self.put_under(i, parent)?,
                None if i == 0 => {}
                None => return None,
            }
        }
        if self.group(self.nodes).is_some() {
            return None;
        }
        Some(())
    }
}
