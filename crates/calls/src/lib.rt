// LIST and BEST: each judges the file, then sweeps over all variants of the plan.
#![tactic(auto)]

ghost use Rattle.std.specs.Prelude.{◌≡◌};
ghost use Rattle.plan.specs.Plan.{plan_of};
ghost use Rattle.term.specs.Term.{Term};
ghost use Rattle.term.specs.Variants.{variant_count};
ghost use Rattle.judge.specs.Judge.{accepts};
ghost use Rattle.judge.specs.Campaign.{HoldsPlan};
ghost use Rattle.answers.specs.Listed.{list_by, list_of};
ghost use Rattle.answers.specs.Shortest.{best_by, best_of};
ghost use Rattle.tally.specs.Seen.{kept, no_tally};
ghost use Rattle.sweep.specs.Swept.{Swept};

use answers::Best;
use judge::Campaign;
use plan::Refusal;
use profile::NEVER;
use tally::Tally;
use timetable::Timetable;

// LIST keeps no schedule: none ends by tick 0.
const NONE: u32 = 0;

// The sweep from nothing, its rows into the area; one cell has room for none. A schedule that ends by `end` may be
// kept.
fn tallied(campaign: &Campaign, end: u32, cap: u32, area: &mut [u32]) -> Tally
    requires { (t : Term) × HoldsPlan campaign.now t }
    ensures { (t : Term) → HoldsPlan campaign.now t
        → Swept campaign.now t cap (variant_count t) (kept (no_tally end) area.old)
        (kept result area.new) }
{
    let mut cells = tally::none(end);
    sweep::sweep(campaign, cap, &mut cells, area);
    tally::tally_of(&cells)
}

// LIST of an accepted plan: nothing is written before it is known that all rows fit. They are written as they are
// found, then sorted where they lie.
fn listed(campaign: &Campaign, cap: u32, area: &mut [u32]) -> Result<u64, Refusal>
    requires { (t : Term) × HoldsPlan campaign.now t }
    ensures { (t : Term) → HoldsPlan campaign.now t
        → record { answer = result; area = area.new }
        ≡ list_by (accepts (plan_of campaign.now.tables) t) cap area.old }
{
    let mut no_room = [0u32; 1];
    let tally = tallied(campaign, NONE, cap, &mut no_room);
    let rows = tally.count;
    if (cap as u64) < rows {
        return Err(Refusal::OverCap);
    }
    let width = campaign.tables.acts + 1;
    let needed = rows * width as u64;
    if (area.len() as u64) < needed {
        return Err(Refusal::AreaTooShort(needed));
    }
    tallied(campaign, NONE, cap, area);
    sorting::sort_rows(area, width, rows as usize);
    Ok(rows)
}

// BEST of an accepted plan: the latest end of an active session is its makespan.
fn shortest(campaign: &Campaign, cap: u32) -> Result<Best, Refusal>
    requires { (t : Term) × HoldsPlan campaign.now t }
    ensures { (t : Term) → HoldsPlan campaign.now t → result ≡ best_by (accepts (plan_of campaign.now.tables) t) cap }
{
    let mut no_room = [0u32; 1];
    let tally = tallied(campaign, NEVER, cap, &mut no_room);
    if (cap as u64) < tally.count {
        return Err(Refusal::OverCap);
    }
    Ok(Best {
        variant: tally.best_variant,
        makespan: tally.best_end,
        count: tally.count,
        shortest: tally.ties,
        timetable: tally.best,
    })
}

// LIST: the rows of the pairs in their order, from the front of the area.
pub fn list(file: &[u8], cap: u32, area: &mut [u32]) -> Result<u64, Refusal>
    ensures { record { answer = result; area = area.new }
        ≡ list_of file.now cap area.old }
{
    listed(&judge::judge(file)?, cap, area)
}

// BEST: the first of the pairs that are shortest, how many pairs there are, and how many of them are shortest. What
// holds of it is in the theorems `demand_3` and `first_shortest_row`.
pub fn best(file: &[u8], cap: u32) -> Result<Best, Refusal>
    ensures { result ≡ best_of file.now cap }
{
    shortest(&judge::judge(file)?, cap)
}
