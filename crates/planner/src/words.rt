// The words of the command line, read into a request.
ghost use Rattle.std.specs.Prelude.{◌≤◌, length};

use arguments::Misplaced;
use std::env::FillError;
use std::fmt;
use std::rt::Env;
use timetable::Timetable;

// The longest word.
pub const WORD: usize = 4096;

// The cap where none is given.
const CAP: u32 = 1000000;

// What the words ask for.
#[derive(Clone, Copy)]
pub enum Request {
    Help,
    Call(Call),
}

// A call on the plan file, with its variant or its cap, and the timetable of a check.
#[derive(Clone, Copy)]
pub enum Call {
    Read,
    Write(u32),
    Check(u32, Timetable),
    Count(u32),
    List(u32),
    Best(u32),
}

// What is wrong with a word.
#[derive(Clone, Copy)]
pub enum Fault {
    NotACommand,
    NotANumber,
    NotAStart,
    SecondStart,
    OneTooMany,
}

impl From<Misplaced> for Fault {
    fn from(misplaced: Misplaced) -> Self {
        match misplaced {
            Misplaced::NotAStart => Fault::NotAStart,
            Misplaced::Twice => Fault::SecondStart,
        }
    }
}

// It stands behind the place of the word, hence the blank.
impl fmt::Display for Fault {
    fn fmt<W: fmt::Write>(&self, f: &mut fmt::Formatter<W>) -> fmt::Result {
        f.write_str(match self {
            Fault::NotACommand => " is not a command",
            Fault::NotANumber => " has to be a number from 0 to 4294967295 with no leading zero",
            Fault::NotAStart => {
                " has to be an activity from 0 to 23, a comma and a start from 0 to 4294967294"
            }
            Fault::SecondStart => " gives an activity a second start",
            Fault::OneTooMany => " is one too many",
        })
    }
}

// The first word that is wrong. At place 0 is the program's name.
#[derive(Clone, Copy)]
pub struct Wrong {
    pub place: usize,
    pub fault: Fault,
}

fn is_given<R: Env>(rt: &R, place: usize) -> bool {
    let mut word = [0u8; WORD];
    !matches!(rt.arg(place, &mut word), Err(FillError::NotPresent))
}

// The length of the word at a place, which goes to the front of the area. One that is missing or longer than the area
// counts as empty.
fn word_at<R: Env>(rt: &R, place: usize, word: &mut [u8]) -> usize
    ensures { result ≤ length word.new }
{
    rt.arg(place, word).unwrap_or(0)
}

// The number that the second word is.
fn number_word<R: Env>(rt: &R) -> Result<u32, Wrong> {
    let mut word = [0u8; WORD];
    let n = word_at(rt, 2, &mut word);
    arguments::number_of(&word[..n]).ok_or(Wrong {
        place: 2,
        fault: Fault::NotANumber,
    })
}

fn cap_word<R: Env>(rt: &R) -> Result<u32, Wrong> {
    if is_given(rt, 2) {
        number_word(rt)
    } else {
        Ok(CAP)
    }
}

// The timetable with the start that the word at a place gives.
fn with_start<R: Env>(rt: &R, timetable: Timetable, place: usize) -> Result<Timetable, Wrong> {
    let mut word = [0u8; WORD];
    let n = word_at(rt, place, &mut word);
    arguments::place(timetable, &word[..n]).map_err(|misplaced| Wrong {
        place,
        fault: Fault::from(misplaced),
    })
}

// The starts that the words from the third on give.
fn start_words<R: Env>(rt: &R) -> Result<Timetable, Wrong> {
    let mut timetable = Timetable::empty();
    for place in 3..usize::MAX {
        if !is_given(rt, place) {
            break;
        }
        timetable = with_start(rt, timetable, place)?;
    }
    Ok(timetable)
}

// The request, if no word stands at the place behind its words.
fn ends_at<R: Env>(rt: &R, place: usize, request: Request) -> Result<Request, Wrong> {
    if is_given(rt, place) {
        return Err(Wrong {
            place,
            fault: Fault::OneTooMany,
        });
    }
    Ok(request)
}

// Where there is no word, help is wanted.
pub fn read_words<R: Env>(rt: &R) -> Result<Request, Wrong> {
    if !is_given(rt, 1) {
        return Ok(Request::Help);
    }
    let mut word = [0u8; WORD];
    let n = word_at(rt, 1, &mut word);
    match &word[..n] {
        b"help" => ends_at(rt, 2, Request::Help),
        b"read" => ends_at(rt, 2, Request::Call(Call::Read)),
        b"write" => ends_at(rt, 3, Request::Call(Call::Write(number_word(rt)?))),
        b"check" => Ok(Request::Call(Call::Check(number_word(rt)?, start_words(rt)?))),
        b"count" => ends_at(rt, 3, Request::Call(Call::Count(cap_word(rt)?))),
        b"list" => ends_at(rt, 3, Request::Call(Call::List(cap_word(rt)?))),
        b"best" => ends_at(rt, 3, Request::Call(Call::Best(cap_word(rt)?))),
        _ => Err(Wrong {
            place: 1,
            fault: Fault::NotACommand,
        }),
    }
}
