// All variants of an accepted plan, searched one after another. A schedule that a lower variant has is passed over, and
// a variant with the activities and the order of a lower one is not searched.
#![tactic(auto)]

ghost use Rattle.std.specs.Prelude.{◌*◌, ◌≤◌, length};
ghost use Rattle.term.specs.Term.{Term};
ghost use Rattle.term.specs.Variants.{variant_count};
ghost use Rattle.tally.specs.Seen.{kept_of, IsTally};
ghost use Rattle.orders.specs.Book.{entry_cells};
ghost use Rattle.judge.specs.Campaign.{HoldsPlan, HoldsVariant};
ghost use Rattle.sweep.specs.Swept.{LaidFor, Swept, Ready, Turned};

use instance::Table;
use judge::Campaign;
use orders::{BUCKETS, ENTRY, Heads};
use plan::MOST_VARIANTS;
use tally::{COUNT, Cells};

// The schedules of variant v that no lower one has, by the table of the plan.
fn search_variant(
    campaign: &Campaign,
    v: u32,
    cap: u32,
    table: &mut Table,
    heads: &mut Heads,
    cells: &mut Cells,
    book: &mut [u32],
    area: &mut [u32],
)
    requires { ((t : Term) × HoldsVariant campaign.now t v × Ready campaign.now t v heads.old book.old
        × LaidFor campaign.now table.old) × IsTally cells.old }
    ensures laid_for { LaidFor campaign.now table.new × IsTally cells.new }
    ensures turned { (t : Term) → HoldsVariant campaign.now t v → Ready campaign.now t v heads.old book.old
        → Turned campaign.now t cap v (kept_of cells.old area.old)
        (kept_of cells.new area.new) heads.new book.new }
{
    let x = precedence::tabled(campaign, v);
    let preds = x.preds;
    let link = orders::find(heads, book, x.present);
    if !orders::compare(book, link, &preds) {
        return;
    }
    instance::for_variant(table, x.present, &preds, v, cap, link);
    search::search(table, cells, book, area);
    orders::enter(heads, book, link, x.present, &preds);
}

// The table of the plan, with no variant in it yet.
fn table_of(campaign: &Campaign) -> Table
    requires { (t : Term) × HoldsPlan campaign.now t }
    ensures { LaidFor campaign.now result }
{
    instance::laid(&campaign.tables)
}

// The same of all variants, with a book that has room for them.
fn sweep_with(campaign: &Campaign, cap: u32, cells: &mut Cells, book: &mut [u32], area: &mut [u32])
    requires { ((t : Term) × HoldsPlan campaign.now t × (entry_cells * variant_count t ≤ length book.old))
        × IsTally cells.old }
    ensures tally { IsTally cells.new }
    ensures swept { (t : Term) → HoldsPlan campaign.now t
        → Swept campaign.now t cap (variant_count t) (kept_of cells.old area.old)
        (kept_of cells.new area.new) }
{
    let mut table = table_of(campaign);
    let mut heads = [0; BUCKETS + 1];
    for v in 0..campaign.variants {
        if cells[COUNT] > cap as u64 {
            return;
        }
        search_variant(campaign, v, cap, &mut table, &mut heads, cells, book, area);
    }
}

// So many variants need a short book.
const FEW: u32 = 16;

// The schedules of all variants, each once, until there are more than `cap`; the tally is carried on.
pub fn sweep(campaign: &Campaign, cap: u32, cells: &mut Cells, area: &mut [u32])
    requires { ((t : Term) × HoldsPlan campaign.now t) × IsTally cells.old }
    ensures tally { IsTally cells.new }
    ensures swept { (t : Term) → HoldsPlan campaign.now t
        → Swept campaign.now t cap (variant_count t) (kept_of cells.old area.old)
        (kept_of cells.new area.new) }
{
    if campaign.variants <= FEW {
        let mut book = [0; FEW as usize * ENTRY];
        sweep_with(campaign, cap, cells, &mut book, area);
        return;
    }
    let mut book = [0; MOST_VARIANTS as usize * ENTRY];
    sweep_with(campaign, cap, cells, &mut book, area);
}
