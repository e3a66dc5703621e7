// Why a file is refused. The first line of a file is line 1.
#[derive(Clone, Copy, PartialEq, Eq, Debug)]
pub enum Refusal {
    // the file is empty, or longer than the longest plan
    Length,
    // a line is not of the form that it is to have
    Form { line: u64 },
    // a value on a line is out of range
    Range { line: u64 },
    // the nodes are not one whole term
    NoTerm,
    // a variant has an activity twice
    Twice,
    TooManyVariants,
    // a group has one child
    LoneChild { line: u64 },
    // an activity holds more units of a resource than it has
    OverCapacity { line: u64 },
}

impl Refusal {
    pub fn number(self) -> u64 {
        match self {
            Refusal::Length => 1,
            Refusal::Form { .. } => 2,
            Refusal::Range { .. } => 3,
            Refusal::NoTerm => 4,
            Refusal::Twice => 5,
            Refusal::TooManyVariants => 6,
            Refusal::LoneChild { .. } => 10,
            Refusal::OverCapacity { .. } => 11,
        }
    }

    // The line that the refusal rests on, 0 where it rests on none.
    pub fn figure(self) -> u64 {
        match self {
            Refusal::Form { line }
            | Refusal::Range { line }
            | Refusal::LoneChild { line }
            | Refusal::OverCapacity { line } => line,
            Refusal::Length | Refusal::NoTerm | Refusal::Twice | Refusal::TooManyVariants => 0,
        }
    }
}
