// The variants of a plan in the order of their numbers. The picks are the digits of an odometer over the x nodes in
// prefix order, the last turning fastest; an x that does not remain keeps the digit 0.
use crate::tables::{Kind, Node, Plan};
use crate::{ACTS, NODES};

#[derive(Clone, Copy)]
struct Picks {
    digit: [u32; NODES],
}

// The nodes that remain, the node of each activity that is there, one more than the sum of the durations, and whether an
// activity stands there twice.
#[derive(Clone, Copy)]
pub struct Variant {
    pub remains: [bool; NODES],
    pub node: [Option<usize>; ACTS],
    pub room: u32,
    pub twice: bool,
}

impl Variant {
    // Does a node remain that comes after its parent?
    fn keeps(&self, p: &Plan, picks: &Picks, node: &Node) -> bool {
        let Some(parent) = node.parent else {
            return true;
        };
        if NODES <= parent {
            return false;
        }
        self.remains[parent]
            && (p.node[parent].kind != Kind::Xor || node.rank == picks.digit[parent])
    }

    fn place(&mut self, p: &Plan, node: usize, number: u32) {
        let i = number as usize;
        if i < ACTS {
            self.twice = self.twice || self.node[i].is_some();
            self.node[i] = Some(node);
            self.room = self.room.saturating_add(p.activity[i].duration);
        }
    }
}

// The variant of the picks.
fn picked(p: &Plan, picks: &Picks) -> Variant {
    let mut v = Variant {
        remains: [false; NODES],
        node: [None; ACTS],
        room: 1,
        twice: false,
    };
    for (i, node) in p.node.iter().take(p.nodes).enumerate() {
        if v.keeps(p, picks, node) {
            v.remains[i] = true;
            if node.kind == Kind::Act {
                v.place(p, i, node.number);
            }
        }
    }
    v
}

// The picks of the next variant: the last x that remains turns to its next child; one that is at its last child turns to
// its first, and the x before it turns too.
fn turned(p: &Plan, picks: &Picks, v: &Variant) -> Option<Picks> {
    let mut next = *picks;
    for i in (0..NODES).rev() {
        if v.remains[i] && p.node[i].kind == Kind::Xor {
            let digit = next.digit[i].saturating_add(1);
            if digit < p.node[i].number {
                next.digit[i] = digit;
                return Some(next);
            }
            next.digit[i] = 0;
        }
    }
    None
}

// The variants that are still to come, the next one by its picks.
#[derive(Clone, Copy)]
pub struct Variants<'a> {
    plan: &'a Plan,
    picks: Option<Picks>,
}

impl Plan {
    // The variants from variant 0 on.
    pub fn variants(&self) -> Variants<'_> {
        Variants {
            plan: self,
            picks: Some(Picks { digit: [0; NODES] }),
        }
    }
}

impl<'a> Iterator for Variants<'a> {
    type Item = Variant;

    fn next(&mut self) -> Option<Variant> {
        let picks = self.picks?;
        let variant = picked(self.plan, &picks);
        self.picks = turned(self.plan, &picks, &variant);
        Some(variant)
    }
}
