// The rows of a listing, printed.
ghost use Rattle.std.specs.Prelude.{◌<◌};

use std::io;
use std::io::Write;
use timetable::Timetable;

// `row=`, the variant and the start of each activity.
fn put_row<W: Write>(out: &mut W, row: &[u32]) -> io::Result<()> {
    write!(out, "row=")?;
    for (i, cell) in row.iter().enumerate() {
        if 0 < i {
            write!(out, ",")?;
        }
        if *cell == Timetable::MARK {
            write!(out, "-")?;
        } else {
            write!(out, "{cell}")?;
        }
    }
    writeln!(out)
}

// Rows that follow one another.
pub fn put_rows<W: Write>(out: &mut W, rows: &[u32], width: usize) -> io::Result<()>
    requires { 0 < width }
{
    for row in rows.chunks_exact(width) {
        put_row(out, row)?;
    }
    Ok(())
}
