// What the programs print: the answer to every command on the dot test, and a refusal of every number, in the order of
// the paper's table.
#![tactic(auto)]

use std::io;
use std::io::Write;
use timetable::Timetable;

// The dot test's shortest session.
fn shortest() -> Timetable {
    let mut timetable = Timetable::empty();
    timetable.starts[0] = 0;
    timetable.starts[3] = 4;
    timetable.starts[4] = 4;
    timetable
}

fn put_read<W: Write>(out: &mut W, case: &str, file: &[u8]) -> io::Result<()> {
    writeln!(out, "case={case} command=read")?;
    printer::put_read(out, file)
}

fn put_written<W: Write>(out: &mut W, case: &str, variant: u32, area: &mut [u8]) -> io::Result<()> {
    writeln!(out, "case={case} command=write")?;
    printer::put_written(out, &samples::dot_test(), variant, area)
}

fn put_checked<W: Write>(
    out: &mut W,
    case: &str,
    variant: u32,
    timetable: Timetable,
) -> io::Result<()> {
    writeln!(out, "case={case} command=check")?;
    printer::put_checked(out, &samples::dot_test(), variant, timetable)
}

fn put_listed<W: Write>(
    out: &mut W,
    case: &str,
    file: &[u8],
    cap: u32,
    area: &mut [u32],
) -> io::Result<()> {
    writeln!(out, "case={case} command=list")?;
    printer::put_listed(out, file, cap, area)
}

// COUNT, LIST and BEST of the dot test, which has three active sessions.
fn put_sessions<W: Write>(out: &mut W, case: &str, cap: u32) -> io::Result<()> {
    writeln!(out, "case={case} command=count")?;
    printer::put_counted(out, &samples::dot_test(), cap)?;
    let mut area = [0u32; 18];
    put_listed(out, case, &samples::dot_test(), cap, &mut area)?;
    writeln!(out, "case={case} command=best")?;
    printer::put_best(out, &samples::dot_test(), cap)
}

fn put_answers<W: Write>(out: &mut W) -> io::Result<()> {
    let mut area = [0u8; printer::BYTES];
    put_read(out, "dot_test", &samples::dot_test())?;
    put_written(out, "variant_1", 1, &mut area)?;
    put_checked(out, "shortest_session", 0, shortest())?;
    put_checked(out, "nothing_starts", 0, Timetable::empty())?;
    put_sessions(out, "cap_3", 3)
}

fn put_file_refusals<W: Write>(out: &mut W) -> io::Result<()> {
    put_read(out, "empty_file", b"")?;
    put_read(out, "file_of_2176_bytes", &[b'a'; console::FILE])?;
    put_read(out, "leading_zero", &samples::leading_zero())?;
    put_read(out, "node_absent", &samples::node_absent())?;
    put_read(out, "line_too_many", &samples::line_too_many())?;
    put_read(out, "duration_20001", &samples::duration_20001())?;
    put_read(out, "group_of_one", &samples::group_of_one())?;
    put_read(out, "units_over_capacity", &samples::units_over_capacity())?;
    put_read(out, "child_absent", &samples::child_absent())?;
    put_read(out, "twice_under_p", &samples::twice_under_p())?;
    put_read(
        out,
        "twelve_choices_and_one",
        &samples::twelve_choices_and_one(),
    )
}

// The dot test has variants 0 and 1.
fn put_variant<W: Write>(out: &mut W) -> io::Result<()> {
    let mut area = [0u8; printer::BYTES];
    put_written(out, "variant_2", 2, &mut area)?;
    put_checked(out, "variant_2", 2, Timetable::empty())
}

// The dot test's variant 0 takes 113 bytes.
fn put_bytes<W: Write>(out: &mut W) -> io::Result<()> {
    let mut area = [0u8; 112];
    put_written(out, "112_bytes", 0, &mut area)
}

fn put_cells<W: Write>(out: &mut W) -> io::Result<()> {
    let mut area = [0u32; printer::CELLS];
    put_listed(
        out,
        "eight_in_parallel",
        &samples::eight_in_parallel(),
        1000000,
        &mut area,
    )
}

// As the program `best` prints it.
fn put_best<W: Write>(out: &mut W, case: &str, file: &[u8]) -> io::Result<()> {
    writeln!(out, "case={case} program=best")?;
    console::put_best(out, calls::best(file, 1000000))
}

fn put_all<W: Write>(out: &mut W) -> io::Result<()> {
    put_answers(out)?;
    put_file_refusals(out)?;
    put_variant(out)?;
    put_sessions(out, "cap_2", 2)?;
    put_bytes(out)?;
    put_cells(out)?;
    put_best(out, "leading_zero", &samples::leading_zero())?;
    put_best(out, "ten_in_parallel", &samples::ten_in_parallel())
}

fn main(rt: HostRuntime) {
    if put_all(&mut rt.stdout()).is_err() {
        let _ = console::fail(&mut rt.stderr(), b"standard output");
    }
}
