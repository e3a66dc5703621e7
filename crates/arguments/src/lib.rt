// The words of a command line: numbers, and the starts of activities.
#![tactic(auto)]

ghost use Rattle.std.specs.Prelude.{◌-◌, ◌<◌, ◌≡◌, length, get_or};
ghost use Rattle.format.specs.Lines.{is_sized};
ghost use Rattle.timetable.specs.Mark.{places};
ghost use Rattle.arguments.specs.Words.{digit_in, value_in, number_in, comma, start_at, start_in, placed_at, placed_in};

use timetable::Timetable;

// How many activity numbers there are, in the type of a word's number.
const ACTS: u32 = plan::MOST_ACTS as u32;

// An activity and the start that a word gives it.
#[derive(Clone, Copy, Debug, PartialEq, Eq)]
pub struct Start {
    pub activity: u32,
    pub start: u32,
}

// Why a word gave no activity its start.
#[derive(Clone, Copy, Debug, PartialEq, Eq)]
pub enum Misplaced {
    NotAStart,
    Twice,
}

fn is_sized(word: &[u8]) -> bool
    ensures { result ≡ is_sized 10 (length word.now) (get_or word.now 0 0) }
{
    match word.len() {
        1 => true,
        2..=10 => word[0] != b'0',
        _ => false,
    }
}

fn digit(b: u8) -> Option<u32>
    ensures { result ≡ digit_in b }
{
    match b {
        b'0'..=b'9' => Some(u32::from(b - b'0')),
        _ => None,
    }
}

// The value of a word of digits.
fn value_of(word: &[u8]) -> Option<u32>
    ensures { result ≡ value_in word.now }
{
    let mut value: u32 = 0;
    for b in word {
        let d = digit(*b)?;
        value = value.checked_mul(10)?.checked_add(d)?;
    }
    Some(value)
}

// The number that a word is.
pub fn number_of(word: &[u8]) -> Option<u32>
    ensures { result ≡ number_in word.now }
{
    if is_sized(word) { value_of(word) } else { None }
}

fn comma_of(word: &[u8]) -> Option<usize>
    ensures { result ≡ comma word.now }
{
    word.iter().position(|b| *b == b',')
}

fn start_at(activity: u32, start: u32) -> Option<Start>
    ensures { result ≡ start_at activity start }
{
    (activity < ACTS && start < Timetable::MARK).then_some(Start { activity, start })
}

// The activity and the start that a word `I,T` gives it.
pub fn start_of(word: &[u8]) -> Option<Start>
    ensures { result ≡ start_in word.now }
{
    let at = comma_of(word)?;
    let activity = number_of(&word[..at])?;
    let start = number_of(&word[at + 1..])?;
    start_at(activity, start)
}

fn place_at(mut timetable: Timetable, start: Start) -> Result<Timetable, Misplaced>
    requires { start.activity < places }
    ensures { result ≡ placed_at timetable start }
{
    let slot = &mut timetable.starts[start.activity as usize];
    if *slot != Timetable::MARK {
        return Err(Misplaced::Twice);
    }
    *slot = start.start;
    Ok(timetable)
}

// The timetable with the start that a word `I,T` gives an activity.
pub fn place(timetable: Timetable, word: &[u8]) -> Result<Timetable, Misplaced>
    ensures { result ≡ placed_in timetable word.now }
{
    let start = start_of(word).ok_or(Misplaced::NotAStart)?;
    place_at(timetable, start)
}
