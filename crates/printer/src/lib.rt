// The answers of the calls, printed. A refusal is its number, its figure and the reason in words.
#![tactic(auto)]

ghost use Rattle.std.specs.Prelude.{◌*◌, ◌<◌, ◌≤◌, IfOk, length};

use answers::Best;
use plan::Refusal;
use std::io;
use std::io::Write;
use timetable::Timetable;

mod rows;

// An area of this many bytes has room for every variant: no accepted file is longer, and a variant written out is
// one.
pub const BYTES: usize = plan::LONGEST;

// The area for the rows of the program `planner`.
pub const CELLS: usize = 262144;

fn put_refused<W: Write>(out: &mut W, refusal: Refusal) -> io::Result<()> {
    console::put_refusal(out, refusal)?;
    console::put_reason(out, refusal)
}

pub fn put_read<W: Write>(out: &mut W, file: &[u8]) -> io::Result<()> {
    match read::read(file) {
        Ok(counts) => {
            writeln!(out, "acts={}", counts.acts)?;
            writeln!(out, "nodes={}", counts.nodes)?;
            writeln!(out, "variants={}", counts.variants)
        }
        Err(refusal) => put_refused(out, refusal),
    }
}

pub fn put_written<W: Write>(
    out: &mut W,
    file: &[u8],
    variant: u32,
    area: &mut [u8],
) -> io::Result<()> {
    match write::write(file, variant, area) {
        Ok(length) => out.write_all(&area[..length]),
        Err(refusal) => put_refused(out, refusal),
    }
}

pub fn put_checked<W: Write>(
    out: &mut W,
    file: &[u8],
    variant: u32,
    timetable: Timetable,
) -> io::Result<()> {
    match inspect::check(file, variant, timetable) {
        Ok(true) => writeln!(out, "feasible=yes"),
        Ok(false) => writeln!(out, "feasible=no"),
        Err(refusal) => put_refused(out, refusal),
    }
}

// How many active sessions there are, and how many of these are shortest.
fn put_counts<W: Write>(out: &mut W, best: Best) -> io::Result<()> {
    writeln!(out, "count={}", best.count)?;
    writeln!(out, "shortest={}", best.shortest)
}

pub fn put_counted<W: Write>(out: &mut W, file: &[u8], cap: u32) -> io::Result<()> {
    match calls::best(file, cap) {
        Ok(best) => put_counts(out, best),
        Err(refusal) => put_refused(out, refusal),
    }
}

// The rows of a listing: how many they are, and the cells of each.
struct Listing {
    rows: usize,
    width: usize,
}

fn list(file: &[u8], cap: u32, area: &mut [u32]) -> Result<Listing, Refusal>
    ensures fits { IfOk result (λ l. l.rows * l.width ≤ length area.new) }
    ensures wide { IfOk result (λ l. 0 < l.width) }
{
    let rows = calls::list(file, cap, area)?;
    let counts = read::read(file)?;
    Ok(Listing {
        rows: rows as usize,
        width: counts.acts + 1,
    })
}

pub fn put_listed<W: Write>(
    out: &mut W,
    file: &[u8],
    cap: u32,
    area: &mut [u32],
) -> io::Result<()> {
    match list(file, cap, area) {
        Ok(Listing { rows, width }) => rows::put_rows(out, &area[..rows * width], width),
        Err(refusal) => put_refused(out, refusal),
    }
}

pub fn put_best<W: Write>(out: &mut W, file: &[u8], cap: u32) -> io::Result<()> {
    match calls::best(file, cap) {
        Ok(best) => {
            console::put_session(out, best.variant, best.makespan)?;
            put_counts(out, best)?;
            console::put_starts(out, best.timetable)
        }
        Err(refusal) => put_refused(out, refusal),
    }
}
