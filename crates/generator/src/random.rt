// Pseudo-random numbers: each state is a number, and the next is drawn from it.
ghost use Rattle.std.specs.Prelude.{◌≤◌};

// The state after a state (xorshift).
pub fn drawn(state: u64) -> u64 {
    let a = state ^ (state << 13);
    let b = a ^ (a >> 7);
    b ^ (b << 17)
}

// The first state.
pub fn seeded(seed: u64) -> u64 {
    seed.wrapping_add(11400714819323198485)
}

// A number below n, or 0 where n is 0, from the upper half of a state.
pub fn below(state: u64, n: u8) -> u8
    ensures { result ≤ n }
{
    let byte = (state / 4294967296 % 256) as u8;
    if n == 0 { 0 } else { byte % n }
}
