// A random term over a range of activities, its nodes in prefix order. A group s or p parts its range among its
// children, so that no variant has an activity twice; the children of an x may share theirs.
use crate::random::{below, drawn};

// The most nodes, and the most children still to come.
const MOST: usize = 32;

// An activity, in sequence, in parallel, one of several.
#[derive(Clone, Copy, PartialEq, Eq, Debug)]
pub enum Kind {
    Act,
    Seq,
    Pll,
    Xor,
}

impl Kind {
    pub fn letter(self) -> u8 {
        match self {
            Kind::Act => b'a',
            Kind::Seq => b's',
            Kind::Pll => b'p',
            Kind::Xor => b'x',
        }
    }
}

#[derive(Clone, Copy)]
pub struct Node {
    pub kind: Kind,
    pub number: u8,
}

// A range of activities, the last of which is the one before its end.
#[derive(Clone, Copy)]
struct Range {
    from: u8,
    to: u8,
}

impl Range {
    // Where a range is parted: past its first activity, and before its end if it has two.
    fn middle(self, state: u64) -> u8 {
        match self.to.saturating_sub(self.from) {
            0 | 1 => self.to,
            width => self.from + 1 + below(state, width - 1),
        }
    }
}

#[derive(Clone, Copy)]
pub struct Term {
    pub nodes: u8,
    pub node: [Node; MOST],
    state: u64,
    forks: u8,
    // the children still to come, the next one last, each with its range
    open: usize,
    range: [Range; MOST],
}

impl Term {
    fn new(state: u64) -> Term {
        let none = Node {
            kind: Kind::Act,
            number: 0,
        };
        Term {
            nodes: 0,
            node: [none; MOST],
            state,
            forks: 0,
            open: 0,
            range: [Range { from: 0, to: 0 }; MOST],
        }
    }

    fn add_node(&mut self, kind: Kind, number: u8) {
        if let Some(place) = self.node.get_mut(usize::from(self.nodes)) {
            *place = Node { kind, number };
            self.nodes += 1;
        }
    }

    fn add_child(&mut self, from: u8, to: u8) {
        if let Some(place) = self.range.get_mut(self.open) {
            *place = Range { from, to };
            self.open += 1;
        }
    }

    // Takes the next child.
    fn take_child(&mut self) -> Option<Range> {
        let last = self.open.checked_sub(1)?;
        let range = *self.range.get(last)?;
        self.open = last;
        Some(range)
    }

    // A group whose children part the range, in either order; of a range that cannot be parted, its activity.
    fn part(&mut self, kind: Kind, range: Range, cut: u8) {
        let Range { from, to } = range;
        if to <= cut {
            self.add_node(Kind::Act, from);
        } else if self.state / 16 % 2 == 0 {
            self.add_node(kind, 2);
            self.add_child(from, cut);
            self.add_child(cut, to);
        } else if to - cut < 2 {
            self.add_node(kind, 2);
            self.add_child(cut, to);
            self.add_child(from, cut);
        } else {
            self.add_node(kind, 3);
            self.add_child(cut + 1, to);
            self.add_child(cut, cut + 1);
            self.add_child(from, cut);
        }
    }

    // An x whose children share the range.
    fn fork(&mut self, range: Range, cut: u8) {
        let Range { from, to } = range;
        let children = below(self.state, 2) + 2;
        self.forks = self.forks.saturating_add(1);
        self.add_node(Kind::Xor, children);
        self.add_child(from, cut);
        self.add_child(from, to);
        if children != 2 {
            self.add_child(if cut < to { cut } else { from }, to);
        }
    }

    // One node for a range: its first activity alone, or a group. Which is a matter of chance, hence a number.
    fn add_range(&mut self, range: Range) {
        let cut = range.middle(self.state / 256);
        match self.state % 8 {
            0 if 0 < self.nodes => self.add_node(Kind::Act, range.from),
            6..=7 if self.forks < 3 => self.fork(range, cut),
            0 | 2 | 4 | 6 => self.part(Kind::Pll, range, cut),
            _ => self.part(Kind::Seq, range, cut),
        }
    }

    // The next child in its range; where the term is large already, an activity.
    fn step(&mut self) {
        let Some(range) = self.take_child() else {
            return;
        };
        self.state = drawn(self.state);
        if 20 < self.nodes || 8 < self.open {
            self.add_node(Kind::Act, range.from);
        } else {
            self.add_range(range);
        }
    }
}

// Each step makes one node.
pub fn grown(state: u64, acts: u8) -> Term {
    let mut term = Term::new(state);
    term.add_child(0, acts);
    for _ in 0..MOST {
        term.step();
    }
    term
}
