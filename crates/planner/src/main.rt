// The planner's calls on the command line: a plan file comes on standard input, and the words say which call answers.
#![tactic(auto)]

mod usage;
mod words;

use std::io;
use std::io::{Read, Write};
use words::{Call, Request};

fn put_written<W: Write>(out: &mut W, file: &[u8], variant: u32) -> io::Result<()> {
    let mut area = [0u8; printer::BYTES];
    printer::put_written(out, file, variant, &mut area)
}

fn put_listed<W: Write>(out: &mut W, file: &[u8], cap: u32) -> io::Result<()> {
    let mut area = [0u32; printer::CELLS];
    printer::put_listed(out, file, cap, &mut area)
}

fn put_answer<W: Write>(out: &mut W, call: Call, file: &[u8]) -> io::Result<()> {
    match call {
        Call::Read => printer::put_read(out, file),
        Call::Write(variant) => put_written(out, file, variant),
        Call::Check(variant, timetable) => printer::put_checked(out, file, variant, timetable),
        Call::Count(cap) => printer::put_counted(out, file, cap),
        Call::List(cap) => put_listed(out, file, cap),
        Call::Best(cap) => printer::put_best(out, file, cap),
    }
}

// Reads the plan file and prints the answer.
fn serve<R: Read, W: Write, E: Write>(reader: &mut R, out: &mut W, err: &mut E, call: Call) {
    let mut file = [0u8; console::FILE];
    let Ok(n) = console::read_input(reader, &mut file) else {
        let _ = console::fail(err, b"standard input");
        return;
    };
    if put_answer(out, call, &file[..n]).is_err() {
        let _ = console::fail(err, b"standard output");
    }
}

fn main(rt: HostRuntime) {
    let mut out = rt.stdout();
    let mut err = rt.stderr();
    match words::read_words(&rt) {
        Ok(Request::Call(call)) => serve(&mut rt.stdin(), &mut out, &mut err, call),
        Ok(Request::Help) => {
            if usage::put_usage(&mut out).is_err() {
                let _ = console::fail(&mut err, b"standard output");
            }
        }
        Err(wrong) => usage::complain(&rt, &mut err, wrong),
    }
}
