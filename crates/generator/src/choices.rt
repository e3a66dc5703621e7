// A term of very many variants in the place of a plan's own: an s or a p over three x, each of which has one activity
// for all its children. The plan has 3841, 4096, 4097 or 4352 variants; 4096 is the most.
use crate::random::below;
use crate::text::Writer;
use crate::tree::Kind;

// The group over the three x; the children of the first of them, the others having 16 each; whether an x over the
// whole adds one more variant; and the activities of the three, and of the very last child.
#[derive(Clone, Copy)]
struct Choices {
    kind: Kind,
    first: u8,
    is_wrapped: bool,
    activity: [u8; 3],
    last: u8,
}

// How many lines after the first begin with this letter.
fn lines(file: &[u8], n: usize, letter: u8) -> u8 {
    let mut count = 0u8;
    for pair in file.windows(2).take(n) {
        if pair == [b'\n', letter].as_slice() {
            count = count.wrapping_add(1);
        }
    }
    count
}

// Where the first of these lines begins; n where there is none.
fn first_line(file: &[u8], n: usize, letter: u8) -> usize {
    let mut pairs = file.windows(2).take(n);
    match pairs.position(|pair| pair == [b'\n', letter].as_slice()) {
        Some(end) => end.saturating_add(1),
        None => n,
    }
}

// One of the first three activities, or of those that there are.
fn activity(i: u8, acts: u8) -> u8 {
    i.checked_rem(acts).unwrap_or(0)
}

// The choices of a state, for a plan of so many activities. Where these are fewer than three, variants have one of them
// twice; else in a quarter of the plans some variants have activity 0 twice.
fn drawn_choices(state: u64, acts: u8) -> Choices {
    let is_twice = below(state << 16, 4) == 0;
    let (first, is_wrapped) = match below(state << 8, 4) {
        0 => (16, false),
        1 => (16, true),
        2 => (17, false),
        _ => (15, true),
    };
    let third = activity(2, acts);
    Choices {
        kind: if state % 2 == 0 { Kind::Seq } else { Kind::Pll },
        first,
        is_wrapped,
        activity: [0, activity(1, acts), third],
        last: if is_twice { 0 } else { third },
    }
}

// An x of so many children, the last of which may be another activity.
fn choice(writer: &mut Writer, children: u8, activity: u8, last: u8) {
    writer.node(Kind::Xor, children);
    for _ in 1..children {
        writer.node(Kind::Act, activity);
    }
    writer.node(Kind::Act, last);
}

fn term(writer: &mut Writer, c: &Choices) {
    let [first, second, third] = c.activity;
    writer.node(c.kind, 3);
    choice(writer, c.first, first, first);
    choice(writer, 16, second, second);
    choice(writer, 16, third, c.last);
}

fn nodes(writer: &mut Writer, c: &Choices) {
    let count = u32::from(c.first) + 36;
    if !c.is_wrapped {
        writer.line(b"nodes=", count);
        term(writer, c);
        return;
    }
    writer.line(b"nodes=", count + 2);
    writer.node(Kind::Xor, 2);
    term(writer, c);
    writer.node(Kind::Act, 0);
}

// Puts the term of a state in the place of the nodes of the plan file that is the area's first n bytes, and returns its
// length then.
pub fn multiply(state: u64, file: &mut [u8], n: usize) -> usize {
    let acts = lines(file, n, b'a').wrapping_sub(1);
    let at = first_line(file, n, b'n');
    let mut writer = Writer::new(file, at);
    nodes(&mut writer, &drawn_choices(state, acts));
    writer.at()
}
