// Standard input and output of the programs, as a reader and a writer.
#![tactic(auto)]

ghost use Rattle.std.specs.Prelude.{◌≤◌, ◌≡◌, IfErr, IfOk, length, take};

use answers::Best;
use plan::Refusal;
use std::io;
use std::io::{Read, Write};
use timetable::Timetable;

// An area for a plan file: one byte more than an accepted one has, so that a longer one is seen to be longer.
pub const FILE: usize = plan::LONGEST + 1;

// A read that failed, and how many bytes came before.
#[derive(Clone, Copy)]
pub struct ReadError {
    pub length: usize,
    pub error: io::Error,
}

// What a reader, as standard input, gives to its end, or as much of it as the area holds: how many bytes.
pub fn read_input<R: Read>(reader: &mut R, area: &mut [u8]) -> Result<usize, ReadError>
    ensures within { IfOk result (λ n. n ≤ length area.new) }
    ensures part { IfOk result (λ n. n ≡ length (take n area.new)) }
    ensures failed_within { IfErr result (λ e. e.length ≤ length area.new) }
    ensures failed_part { IfErr result (λ e. e.length ≡ length (take e.length area.new)) }
{
    let mut length = 0;
    // A while: the step is the length of what was read.
    while length < area.len() {
        match reader.read(&mut area[length..]) {
            Ok(0) => break,
            Ok(more) => length += more,
            Err(error) => return Err(ReadError { length, error }),
        }
    }
    Ok(length)
}

// A line for standard error: what failed, as the caller names it.
pub fn fail<W: Write>(err: &mut W, what: &[u8]) -> io::Result<()> {
    err.write_all(what)?;
    err.write_all(b": failed\n")
}

pub fn put_refusal<W: Write>(out: &mut W, refusal: Refusal) -> io::Result<()> {
    writeln!(out, "refused={}", refusal.number())?;
    writeln!(out, "figure={}", refusal.figure())
}

// The line that says in words why a call refused.
pub fn put_reason<W: Write>(out: &mut W, refusal: Refusal) -> io::Result<()> {
    writeln!(out, "reason={refusal}")
}

// The start of each activity that is present.
pub fn put_starts<W: Write>(out: &mut W, timetable: Timetable) -> io::Result<()> {
    let starts = timetable.starts;
    for (i, start) in starts.iter().enumerate() {
        if *start != Timetable::MARK {
            writeln!(out, "start={i},{start}")?;
        }
    }
    Ok(())
}

// The variant and the makespan of a session.
pub fn put_session<W: Write>(out: &mut W, variant: u64, makespan: u64) -> io::Result<()> {
    writeln!(out, "variant={variant}")?;
    writeln!(out, "makespan={makespan}")
}

// A shortest session and the number of active ones, or the refusal.
pub fn put_best<W: Write>(out: &mut W, best: Result<Best, Refusal>) -> io::Result<()> {
    match best {
        Ok(best) => {
            put_session(out, best.variant, best.makespan)?;
            writeln!(out, "count={}", best.count)?;
            put_starts(out, best.timetable)
        }
        Err(refusal) => put_refusal(out, refusal),
    }
}
