// The calls that C makes, each that of `vialbluff`.
#![tactic(auto)]

ghost use Rattle.std.specs.Prelude.{◌≡◌};
ghost use Rattle.read.specs.Answer.{read_of};
ghost use Rattle.inspect.specs.Answer.{check_of};
ghost use Rattle.vialbluff.specs.Cells.{read_cells, check_cells, WriteLeaves, ListLeaves, BestLeaves};

use plan::MOST_ACTS;

#[unsafe(no_mangle)]
pub extern "C" fn vialbluff_read(file: &[u8], out: &mut [u64; 4])
    ensures { out.new ≡ read_cells (read_of file.now) }
{
    vialbluff::vialbluff_read(file, out);
}

#[unsafe(no_mangle)]
pub extern "C" fn vialbluff_write(file: &[u8], variant: u32, area: &mut [u8], out: &mut [u64; 4])
    ensures { WriteLeaves file.now variant area.old area.new out.new }
{
    vialbluff::vialbluff_write(file, variant, area, out);
}

#[unsafe(no_mangle)]
pub extern "C" fn vialbluff_check(
    file: &[u8],
    variant: u32,
    starts: &[u32; MOST_ACTS],
    out: &mut [u64; 4],
)
    ensures { out.new ≡ check_cells (check_of file.now variant starts.now) }
{
    vialbluff::vialbluff_check(file, variant, starts, out);
}

#[unsafe(no_mangle)]
pub extern "C" fn vialbluff_list(file: &[u8], cap: u32, area: &mut [u32], out: &mut [u64; 4])
    ensures { ListLeaves file.now cap area.old area.new out.new }
{
    vialbluff::vialbluff_list(file, cap, area, out);
}

#[unsafe(no_mangle)]
pub extern "C" fn vialbluff_best(
    file: &[u8],
    cap: u32,
    starts: &mut [u32; MOST_ACTS],
    out: &mut [u64; 5],
)
    ensures { BestLeaves file.now cap starts.old starts.new out.new }
{
    vialbluff::vialbluff_best(file, cap, starts, out);
}
