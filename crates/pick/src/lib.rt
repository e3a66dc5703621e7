// Where the terms of a plan end, how many variants each has, and the nodes of one variant, as they are written out.
#![tactic(auto)]

ghost use Rattle.std.specs.Prelude.{◌+◌, ◌/◌, ◌%◌, ◌≤◌, ◌<◌, min, length, ◌≡◌};
ghost use Rattle.std.proofs.Math.Option.{some};
ghost use Rattle.plan.specs.Limits.{most_nodes};
ghost use Rattle.term.specs.Term.{Term, firsts, term_of};
ghost use Rattle.term.specs.Variants.{variant_count};
ghost use Rattle.pick.specs.Picked.{Picks};
ghost use Rattle.pick.specs.Model.{stop, Spanned, Stopped, combine, ChildrenFrom, AlongChildren, Begun, Ended};
ghost use Rattle.pick.specs.Model.{AmongAlternatives, AlternativeFound, parts_of, parts_of_each, term_at, terms_at};
ghost use Rattle.pick.specs.Model.{node_at, node_by, joins, Grown, OfTerm, OfGroup, OfEach};

mod output;

pub use output::Picked;
use plan::{MOST_NODES, Node};

// Where a term ends, and how many variants it has.
#[derive(Clone, Copy)]
pub struct Span {
    pub next: usize,
    pub count: u32,
}

// For each node, the span of the term that it begins.
pub type Spans = [Span; MOST_NODES];

// The nodes of a plan, and their spans.
#[derive(Clone, Copy)]
struct Terms<'a> {
    nodes: &'a [Node],
    spans: &'a Spans,
}

// A place among the nodes, and a variant of the term there.
#[derive(Clone, Copy)]
struct Place {
    at: usize,
    v: u32,
}

// A variant of several terms: that of the first one, that of the others, and how many the others have.
#[derive(Clone, Copy)]
struct Digits {
    first: u32,
    rest: u32,
    others: u32,
}

// A group of which all children are done.
#[derive(Clone, Copy, PartialEq, Eq)]
enum Group {
    Sequence,
    Parallel,
}

impl Group {
    fn node(self, children: u8) -> Node
        ensures { result ≡ node_by self children }
    {
        match self {
            Group::Sequence => Node::Seq(children),
            Group::Parallel => Node::Pll(children),
        }
    }

    // Whether a group gives its children to the one around it, which is then of its own kind.
    fn joins(self, outer: Option<Group>) -> bool
        ensures { result ≡ joins self outer }
    {
        outer == Some(self)
    }
}

// The counts of variants stop one above the most that a plan may have, so that none overflows.
const STOP: u32 = plan::MOST_VARIANTS + 1;

// The spans of the nodes of a term, from the last node to the first: a node's children stand behind it.
pub fn spans_of(nodes: &[Node]) -> Spans
    requires { (length nodes.now ≤ most_nodes) × ((t : Term) × (term_of nodes.now ≡ some t)) }
    ensures { Stopped nodes.now result 0 }
{
    let mut spans = [Span { next: 0, count: 0 }; MOST_NODES];
    for i in (0..nodes.len()).rev() {
        let terms = Terms {
            nodes,
            spans: &spans,
        };
        spans[i] = terms.span_of(i);
    }
    spans
}

// The variants of some children and of one more.
fn combined(apart: bool, a: u32, b: u32) -> u32
    requires { (a ≤ stop) × (b ≤ stop) }
    ensures { result ≡ min (combine apart a b) stop }
{
    let n = if apart { a + b } else { a * b };
    if n < STOP { n } else { STOP }
}

// Of the `all` variants of several terms, number v, where the first term has `here`: the first one varies slowest.
fn split(v: u32, all: u32, here: u32) -> Digits
    requires { (0 < here) × (0 < all / here) }
    ensures { result ≡ record { first = v / (all / here); rest = v % (all / here); others = all / here } }
{
    let others = all / here;
    Digits {
        first: v / others,
        rest: v % others,
        others,
    }
}

impl Terms<'_> {
    // The span of a node, whose children begin behind it.
    fn span_of(&self, i: usize) -> Span
        requires { (i < length self.now.nodes.now)
            × Begun self.now.nodes.now self.now.spans.now (node_at self.now.nodes.now i) (i + 1) }
        ensures { Ended self.now.nodes.now (node_at self.now.nodes.now i) (i + 1) result }
    {
        let from = i + 1;
        match self.nodes[i] {
            Node::Act(_) => Span {
                next: from,
                count: 1,
            },
            Node::Seq(k) | Node::Pll(k) => self.walk(false, k, from),
            Node::Xor(k) => self.walk(true, k, from),
        }
    }

    // Along k children: the place behind them, and how many variants they have, one of them chosen or all together.
    fn walk(&self, apart: bool, k: u8, from: usize) -> Span
        requires { ChildrenFrom self.now.nodes.now self.now.spans.now k from }
        ensures { AlongChildren self.now.nodes.now apart k from result }
    {
        let mut at = from;
        let mut ways = if apart { 0 } else { 1 };
        for _ in 0..k {
            let span = self.spans[at];
            ways = combined(apart, ways, span.count);
            at = span.next;
        }
        Span {
            next: at,
            count: ways,
        }
    }

    // The child, of those from a place on, that v falls into.
    fn alternative(&self, from: usize, v: u32) -> Place
        requires { AmongAlternatives self.now.nodes.now self.now.spans.now from v }
        ensures { AlternativeFound self.now.nodes.now from v result }
    {
        let mut at = from;
        let mut left = v;
        // A while: the step depends on what is read.
        while self.spans[at].count <= left {
            left -= self.spans[at].count;
            at = self.spans[at].next;
        }
        Place { at, v: left }
    }

    // Writes a variant of the term at a place, as a child of a group or of none: how many children that adds.
    #[cycle(each_term)]
    fn term(&self, outer: Option<Group>, place: Place, picked: &mut Picked) -> u8
        requires { OfTerm self.now.nodes.now self.now.spans.now place picked.old }
        ensures { Grown picked.old picked.new
            (parts_of outer (term_at self.now.nodes.now place.at) place.v) result }
    {
        let node = self.nodes[place.at];
        match node {
            Node::Act(_) => {
                let room = picked.leave_room();
                picked.node[room] = node;
                1
            }
            Node::Seq(k) => self.group(Group::Sequence, k, outer, place, picked),
            Node::Pll(k) => self.group(Group::Parallel, k, outer, place, picked),
            Node::Xor(_) => {
                let one = self.alternative(place.at + 1, place.v);
                self.term(outer, one, picked)
            }
        }
    }

    // The same, where the term is a group of k children. A group in one of its own kind gives its children to it.
    #[cycle(each_term)]
    fn group(
        &self,
        kind: Group,
        k: u8,
        outer: Option<Group>,
        place: Place,
        picked: &mut Picked,
    ) -> u8
        requires { OfGroup self.now.nodes.now self.now.spans.now kind k place picked.old }
        ensures { Grown picked.old picked.new
            (parts_of outer (term_at self.now.nodes.now place.at) place.v) result }
    {
        let all = self.spans[place.at].count;
        let children = Place {
            at: place.at + 1,
            v: place.v,
        };
        if kind.joins(outer) {
            self.each(kind, k, children, all, picked)
        } else {
            let room = picked.leave_room();
            let written = self.each(kind, k, children, all, picked);
            picked.node[room] = kind.node(written);
            1
        }
    }

    // Writes one of the `all` variants that k terms from a place on have together, each as a child of a group.
    #[cycle(each_term)]
    fn each(&self, kind: Group, k: u8, place: Place, all: u32, picked: &mut Picked) -> u8
        requires { OfEach self.now.nodes.now self.now.spans.now k place all picked.old }
        ensures { Grown picked.old picked.new
            (parts_of_each kind (firsts k (terms_at self.now.nodes.now place.at)) place.v) result }
    {
        let mut children = 0;
        let mut at = place.at;
        let mut left = place.v;
        let mut ways = all;
        for _ in 0..k {
            let here = self.spans[at];
            let digits = split(left, ways, here.count);
            let first = Place {
                at,
                v: digits.first,
            };
            children += self.term(Some(kind), first, picked);
            at = here.next;
            left = digits.rest;
            ways = digits.others;
        }
        children
    }
}

// The nodes of variant v of an accepted plan.
pub fn pick(nodes: &[Node], spans: &Spans, v: u32) -> Picked
    requires { (length nodes.now ≤ most_nodes) × Spanned nodes.now spans.now 0
        × ((t : Term) × (term_of nodes.now ≡ some t) × (v < variant_count t)) }
    ensures { (t : Term) → term_of nodes.now ≡ some t → Picks t v result }
{
    let mut picked = Picked {
        nodes: 0,
        node: [Node::Act(0); MOST_NODES],
    };
    Terms { nodes, spans }.term(None, Place { at: 0, v }, &mut picked);
    picked
}
