// The rules of a variant: its plan, and how each two of its activities stand to each other.
use plain::{ACTS, Kind, NODES, Plan, Variant};
use std::iter;

#[derive(Clone, Copy, PartialEq, Eq, Debug)]
pub enum Relation {
    Free,
    Before,
    After,
}

// How each activity stands to each other one: the first stands so to the second.
#[derive(Clone, Copy)]
pub struct Relations {
    pub of: [[Relation; ACTS]; ACTS],
}

#[derive(Clone, Copy)]
pub struct Rules<'a> {
    pub plan: &'a Plan,
    pub variant: &'a Variant,
    pub relations: Relations,
}

// The node where a node and an earlier one part: the nearest above the later that does not come after the earlier.
fn parting(p: &Plan, earlier: usize, later: usize) -> Option<usize> {
    let mut above = iter::successors(Some(later), |&i| p.node.get(i)?.parent).take(NODES + 1);
    above.find(|&i| i <= earlier)
}

// Do two nodes part at an s?
fn in_sequence(p: &Plan, earlier: usize, later: usize) -> bool {
    let parting = parting(p, earlier, later).and_then(|i| p.node.get(i));
    parting.is_some_and(|node| node.kind == Kind::Seq)
}

// How two activities stand to each other, by their nodes.
fn related(p: &Plan, first: Option<usize>, second: Option<usize>) -> Relation {
    let (Some(first), Some(second)) = (first, second) else {
        return Relation::Free;
    };
    if first < second && in_sequence(p, first, second) {
        return Relation::Before;
    }
    if second < first && in_sequence(p, second, first) {
        return Relation::After;
    }
    Relation::Free
}

impl Relations {
    fn new(p: &Plan, v: &Variant) -> Relations {
        let mut of = [[Relation::Free; ACTS]; ACTS];
        for (row, first) in of.iter_mut().zip(&v.node) {
            for (relation, second) in row.iter_mut().zip(&v.node) {
                *relation = related(p, *first, *second);
            }
        }
        Relations { of }
    }
}

impl<'a> Rules<'a> {
    pub fn new(plan: &'a Plan, variant: &'a Variant) -> Rules<'a> {
        Rules {
            plan,
            variant,
            relations: Relations::new(plan, variant),
        }
    }
}
