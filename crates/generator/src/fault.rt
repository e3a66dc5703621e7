// A fault in a plan file: a byte changed, dropped, inserted or appended, the file cut short, or a term of very many
// variants.
ghost use Rattle.generator.specs.Text.{Counts};

use crate::random::{below, drawn, seeded};
use crate::text::within;

fn letter(r: u8) -> u8 {
    match r {
        0 => b'a',
        1 => b's',
        2 => b'p',
        _ => b'x',
    }
}

// A byte for another: a digit for a digit and mostly a node's letter for one, so that values and terms have faults
// too.
fn instead(b: u8, state: u64) -> u8 {
    let r = below(state, 10);
    match b {
        b'0'..=b'9' => r + b'0',
        b'a' | b's' | b'p' | b'x' if r < 8 => letter(r / 2),
        _ => below(state << 8, 255),
    }
}

// A place in the first n bytes; 0 where there are none.
fn place(state: u64, n: usize) -> usize {
    ((state >> 8) as usize).checked_rem(n).unwrap_or(0)
}

// The bytes after a place, each moved to the place before it.
fn drop(file: &mut [u8], at: usize) {
    if at < file.len() {
        for i in at + 1..file.len() {
            file[i - 1] = file[i];
        }
    }
}

// A byte put before a place, in place of the last of all.
fn insert(file: &mut [u8], at: usize, b: u8) {
    if at < file.len() {
        file[at..].rotate_right(1);
        file[at] = b;
    }
}

// Another byte at a place.
fn change(file: &mut [u8], at: usize, state: u64) {
    if let Some(b) = file.get_mut(at) {
        *b = instead(*b, state);
    }
}

// A byte at a place, whatever stood there.
fn set_byte(file: &mut [u8], at: usize, b: u8) {
    if let Some(place) = file.get_mut(at) {
        *place = b;
    }
}

// Which fault it is, is a matter of chance, hence a number.
fn faulted(seed: u64, file: &mut [u8], n: usize) -> usize {
    let first = drawn(drawn(seeded(seed)));
    let second = drawn(first);
    let third = drawn(second);
    let fourth = drawn(third);
    if below(fourth, 64) == 0 {
        return crate::choices::multiply(fourth, file, n);
    }
    let at = place(second, n);
    match below(first, 7) {
        0..=2 => {
            change(file, at, third);
            n
        }
        3 => {
            drop(file, at);
            n.saturating_sub(1)
        }
        4 => {
            let b = file.get(at).copied().unwrap_or(0);
            insert(file, at, instead(b, third));
            n.wrapping_add(1)
        }
        5 => at,
        _ => {
            set_byte(file, n, instead(0, third));
            n.saturating_add(1)
        }
    }
}

// Puts a fault, made of a seed, into the plan file that is the area's first n bytes, and returns its length then.
pub fn damage(seed: u64, file: &mut [u8], n: usize) -> usize
    ensures { Counts result file.new }
{
    let length = faulted(seed, file, n);
    within(file, length)
}
