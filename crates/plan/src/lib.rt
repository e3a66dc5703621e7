// A plan as the program keeps it, and the refusals of every call.
#![tactic(auto)]

ghost use Rattle.std.specs.Prelude.{◌≡◌, ◌≤◌, take};
ghost use Rattle.plan.specs.Limits.{says_units, most_resources, most_acts, most_nodes};

use std::error::Error;
use std::fmt;

// The limits of the plan file, as in `specs/Limits.antt`, each in the type of what it bounds.
pub const LAST_EDITION: u32 = 2;

pub const MOST_RESOURCES: usize = 16;

pub const MOST_UNITS: u32 = 15;

pub const MOST_ACTS: usize = 24;

pub const LONGEST_DURATION: u16 = 20000;

pub const MOST_NODES: usize = 64;

pub const MOST_CHILDREN: u8 = 63;

pub const LONGEST: usize = 2175;

pub const MOST_VARIANTS: u32 = 4096;

// The form of each kind of line: `#` stands for a value and `@` for a node's letter.
pub const EDITION_FORM: [u8; 7] = *b"plan=#\n";

pub const RESOURCES_FORM: [u8; 6] = *b"res=#\n";

pub const CAPACITY_FORM: [u8; 6] = *b"cap=#\n";

pub const ACTS_FORM: [u8; 7] = *b"acts=#\n";

// `act=r,d` in the first edition; then `act=d`, a count for each resource and the end of the line.
pub const ACT_FORM: [u8; 8] = *b"act=#,#\n";

pub const DURATION_FORM: [u8; 5] = *b"act=#";

pub const COUNT_FORM: [u8; 2] = *b",#";

pub const LINE_END: [u8; 1] = *b"\n";

pub const NODES_FORM: [u8; 8] = *b"nodes=#\n";

pub const NODE_FORM: [u8; 9] = *b"node=@,#\n";

// Why a call turns its input back. `number_of` and `figure_of` give the paper's number and figure of each case.
#[derive(Clone, Copy, Debug, PartialEq, Eq)]
pub enum Refusal {
    Length,
    Form(u64),
    Range(u64),
    GroupOfOne(u64),
    OverCapacity(u64),
    NotOneTerm,
    Twice,
    TooManyVariants,
    NoSuchVariant,
    OverCap,
    AreaTooShort(u64),
}

impl Refusal {
    ghost use Rattle.plan.specs.Refusals.{number_of, figure_of};

    pub fn number(self) -> u64
        ensures { result ≡ number_of self }
    {
        match self {
            Refusal::Length => 1,
            Refusal::Form(_) => 2,
            Refusal::Range(_) => 3,
            Refusal::GroupOfOne(_) => 10,
            Refusal::OverCapacity(_) => 11,
            Refusal::NotOneTerm => 4,
            Refusal::Twice => 5,
            Refusal::TooManyVariants => 6,
            Refusal::NoSuchVariant => 9,
            Refusal::OverCap => 7,
            Refusal::AreaTooShort(_) => 8,
        }
    }

    pub fn figure(self) -> u64
        ensures { result ≡ figure_of self }
    {
        match self {
            Refusal::Form(line)
            | Refusal::Range(line)
            | Refusal::GroupOfOne(line)
            | Refusal::OverCapacity(line) => line,
            Refusal::AreaTooShort(needed) => needed,
            _ => 0,
        }
    }
}

// The reason in words, a sentence.
impl fmt::Display for Refusal {
    fn fmt<W: fmt::Write>(&self, f: &mut fmt::Formatter<W>) -> fmt::Result {
        f.write_str(match self {
            Refusal::Length => "The plan file is empty or longer than 2175 bytes.",
            Refusal::Form(_) => {
                "The line of that number is absent or ill formed, or follows the last line of the plan."
            }
            Refusal::Range(_) => "A value on the line of that number is out of its range.",
            Refusal::GroupOfOne(_) => "The group on the line of that number has a single child.",
            Refusal::OverCapacity(_) => {
                "A count of units on the line of that number is above the capacity of its device."
            }
            Refusal::NotOneTerm => "The nodes are not one whole term.",
            Refusal::Twice => "Some variant has an activity twice.",
            Refusal::TooManyVariants => "The plan has more than 4096 variants.",
            Refusal::NoSuchVariant => "The plan has no variant of that number.",
            Refusal::OverCap => "The plan has more active sessions than the cap.",
            Refusal::AreaTooShort(_) => {
                "The answer needs as much room as the figure says, which is more than there is."
            }
        })
    }
}

impl Error for Refusal {}

// An activity: its duration, and the units that it holds of each resource while it runs.
#[derive(Clone, Copy)]
pub struct Activity {
    pub duration: u16,
    pub units: [u8; MOST_RESOURCES],
}

// A node of the term: an activity by its number, or a group by how many children follow: all of them in sequence or
// side by side, or one of them.
#[derive(Clone, Copy, Debug, PartialEq, Eq)]
pub enum Node {
    Act(u8),
    Seq(u8),
    Pll(u8),
    Xor(u8),
}

impl Node {
    ghost use Rattle.plan.specs.Plan.{node_of, letter_of, value_of};

    // There is no letter other than these four: a, s, p and x.
    pub fn of(letter: u32, number: u8) -> Node
        ensures { result ≡ node_of letter number }
    {
        match letter {
            97 => Node::Act(number),
            115 => Node::Seq(number),
            112 => Node::Pll(number),
            _ => Node::Xor(number),
        }
    }

    pub fn letter(self) -> u8
        ensures { result ≡ letter_of self }
    {
        match self {
            Node::Act(_) => b'a',
            Node::Seq(_) => b's',
            Node::Pll(_) => b'p',
            Node::Xor(_) => b'x',
        }
    }

    pub fn number(self) -> u8
        ensures { result ≡ value_of self }
    {
        match self {
            Node::Act(n) | Node::Seq(n) | Node::Pll(n) | Node::Xor(n) => n,
        }
    }
}

// The values of a plan file. The memory is fixed, so that each table has a count beside it: what stands past it means
// nothing, and so do the units of resources that the plan does not have.
#[derive(Clone, Copy)]
pub struct Tables {
    pub edition: u16,
    pub resources: usize,
    pub capacity: [u8; MOST_RESOURCES],
    pub acts: usize,
    pub activity: [Activity; MOST_ACTS],
    pub nodes: usize,
    pub node: [Node; MOST_NODES],
    pub ghost resources_held: { resources ≤ most_resources },
    pub ghost acts_held: { acts ≤ most_acts },
    pub ghost nodes_held: { nodes ≤ most_nodes },
}

impl Tables {
    pub fn capacities(&self) -> &[u8]
        ensures { result.now ≡ take self.now.resources self.now.capacity }
    {
        &self.capacity[..self.resources]
    }

    pub fn activities(&self) -> &[Activity]
        ensures { result.now ≡ take self.now.acts self.now.activity }
    {
        &self.activity[..self.acts]
    }

    pub fn all_nodes(&self) -> &[Node]
        ensures { result.now ≡ take self.now.nodes self.now.node }
    {
        &self.node[..self.nodes]
    }
}

// Whether a plan of an edition says the units of its resources and activities.
pub fn says_units(edition: u16) -> bool
    ensures { result ≡ says_units edition }
{
    2 <= edition
}
