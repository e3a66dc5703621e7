// The calls for C and Rust, kept to numbers and slices. Each fills `out`: 0 and the values on success, else the
// refusal's number and figure. `vialbluff_c` exports them.
#![tactic(auto)]

ghost use Rattle.std.specs.Prelude.{◌≡◌};
ghost use Rattle.read.specs.Answer.{read_of};
ghost use Rattle.inspect.specs.Answer.{check_of};
ghost use Rattle.vialbluff.specs.Cells.{refusal_cells, read_cells, check_cells};
ghost use Rattle.vialbluff.specs.Cells.{WriteLeaves, ListLeaves, BestLeaves};

use plan::{MOST_ACTS, Refusal};
use timetable::Timetable;

fn refused(r: Refusal) -> [u64; 4]
    ensures { result ≡ refusal_cells r }
{
    [r.number(), r.figure(), 0, 0]
}

pub fn vialbluff_read(file: &[u8], out: &mut [u64; 4])
    ensures { out.new ≡ read_cells (read_of file.now) }
{
    *out = match read::read(file) {
        Ok(counts) => [
            0,
            counts.acts as u64,
            counts.nodes as u64,
            counts.variants as u64,
        ],
        Err(r) => refused(r),
    };
}

pub fn vialbluff_write(file: &[u8], variant: u32, area: &mut [u8], out: &mut [u64; 4])
    ensures { WriteLeaves file.now variant area.old area.new out.new }
{
    *out = match write::write(file, variant, area) {
        Ok(bytes) => [0, bytes as u64, 0, 0],
        Err(r) => refused(r),
    };
}

pub fn vialbluff_check(file: &[u8], variant: u32, starts: &[u32; MOST_ACTS], out: &mut [u64; 4])
    ensures { out.new ≡ check_cells (check_of file.now variant starts.now) }
{
    *out = match inspect::check(file, variant, Timetable { starts: *starts }) {
        Ok(is_feasible) => [0, is_feasible as u64, 0, 0],
        Err(r) => refused(r),
    };
}

pub fn vialbluff_list(file: &[u8], cap: u32, area: &mut [u32], out: &mut [u64; 4])
    ensures { ListLeaves file.now cap area.old area.new out.new }
{
    *out = match calls::list(file, cap, area) {
        Ok(rows) => [0, rows, 0, 0],
        Err(r) => refused(r),
    };
}

pub fn vialbluff_best(file: &[u8], cap: u32, starts: &mut [u32; MOST_ACTS], out: &mut [u64; 5])
    ensures { BestLeaves file.now cap starts.old starts.new out.new }
{
    match calls::best(file, cap) {
        Ok(best) => {
            let timetable = best.timetable;
            let found = timetable.starts;
            *starts = found;
            *out = [0, best.variant, best.makespan, best.count, best.shortest];
        }
        Err(r) => {
            *out = [r.number(), r.figure(), 0, 0, 0];
        }
    }
}
