// What the program can be asked, and the report of a word that it cannot take.
use crate::words::{WORD, Wrong};
use std::env::FillError;
use std::io;
use std::io::Write;
use std::rt::Env;

const USAGE: &str = "\
usage: planner COMMAND, with a plan file on standard input
  planner help           print this text
  planner read           print the numbers of activities, nodes and variants
  planner write V        write variant V out as a plan file
  planner check V I,T..  is it a feasible session of V that each activity I named starts at T?
  planner count [CAP]    print how many active sessions the variants have together, each once,
                         and how many of these are as short as the shortest
  planner list [CAP]     print each of them: the lowest variant that has it, then the start of
                         each activity, - if absent, in the order of these numbers
  planner best [CAP]     print the first shortest session of that order, and what count prints
More active sessions than CAP, which is 1000000 if not given, are refused.
";

pub fn put_usage<W: Write>(out: &mut W) -> io::Result<()> {
    write!(out, "{USAGE}")
}

fn put_word<R: Env, W: Write>(rt: &R, err: &mut W, place: usize) {
    let mut word = [0u8; WORD];
    match rt.arg(place, &mut word) {
        Ok(n) => {
            let _ = write!(err, "'");
            let _ = err.write_all(&word[..n]);
            let _ = write!(err, "'");
        }
        Err(FillError::TooLong) => {
            let _ = write!(err, "it is longer than 4096 bytes");
        }
        Err(FillError::NotPresent) => {
            let _ = write!(err, "it is missing");
        }
    }
}

// Says what is wrong with a word, and how the program is used. Where a part cannot be written nobody is left to be
// told, and the next part is tried.
pub fn complain<R: Env, W: Write>(rt: &R, err: &mut W, wrong: Wrong) {
    let _ = write!(err, "planner: word ");
    let _ = write!(err, "{}", wrong.place);
    let _ = write!(err, "{}", wrong.fault);
    let _ = write!(err, ": ");
    put_word(rt, err, wrong.place);
    let _ = writeln!(err);
    let _ = put_usage(err);
}
