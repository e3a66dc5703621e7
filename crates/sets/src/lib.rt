// Sets of activities: one bit for each, bit i for activity i.
#![tactic(auto)]

ghost use Rattle.std.specs.Prelude.{◌≡◌, ◌-◌, ◌^◌, ◌<◌, true};
ghost use Rattle.std.specs.Int.Bits.{bit_and, bit_or, bit_xor};
ghost use Rattle.sets.specs.Sets.{most, has, meet};
ghost use Rattle.sets.specs.Lowest.{lowest_of, after_lowest};
ghost use Rattle.sets.specs.Each.{TakesLowest};
ghost use Rattle.std.specs.Iterator.{at_most};

// The bits of a word. What is kept for each member has a place for each of them, so that any bit is an index.
pub const WIDTH: usize = 32;

// The set of all activity numbers.
pub const EVERY: u32 = 16777215;

// The set of activity i alone.
pub fn single(i: usize) -> u32
    requires { i < most }
    ensures { result ≡ 2 ^ i }
{
    1 << i
}

pub fn contains(set: u32, i: usize) -> bool
    requires { i < most }
    ensures { result ≡ has set i }
{
    (set >> i) & 1 == 1
}

// The activities of either set.
pub fn union(a: u32, b: u32) -> u32
    ensures { result ≡ bit_or a b }
{
    a | b
}

// Have the two sets an activity in common?
pub fn meets(a: u32, b: u32) -> bool
    ensures { result ≡ meet a b }
{
    a & b != 0
}

// The set less its activity i.
pub fn without(set: u32, i: usize) -> u32
    requires { (i < most) × (has set i ≡ true) }
    ensures { result ≡ set - 2 ^ i }
{
    set ^ single(i)
}

// The activities of the first set that are not in the second.
pub fn minus(a: u32, b: u32) -> u32
    ensures { result ≡ bit_xor a (bit_and a b) }
{
    a ^ (a & b)
}

// The activities of both sets.
pub fn common(a: u32, b: u32) -> u32
    ensures { result ≡ bit_and a b }
{
    a & b
}

// The lowest member.
pub fn lowest(set: u32) -> usize
    ensures { result ≡ lowest_of set }
{
    u32::trailing_zeros(set) as usize
}

// The set without its lowest member.
pub fn after_lowest(set: u32) -> u32
    requires { 0 < set }
    ensures { result ≡ after_lowest set }
{
    set & (set - 1)
}

// The activities of a set one by one, the lowest first.
#[derive(Clone, Drop)]
pub struct Iter {
    left: u32,
}

pub fn activities(set: u32) -> Iter
    ensures { result.left ≡ set }
{
    Iter { left: set }
}

impl Iterator for Iter {
    type Item = usize;

    ghost next_gives = { TakesLowest };

    ghost remaining = { λ s. at_most s.left };

    fn next(&mut self) -> Option<usize> {
        if self.left == 0 {
            return None;
        }
        let i = lowest(self.left);
        self.left = after_lowest(self.left);
        Some(i)
    }
}
