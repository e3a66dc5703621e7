// WRITE: a variant of a plan, written out as a plan file.
#![tactic(auto)]

ghost use Rattle.std.specs.Prelude.{◌≡◌};
ghost use Rattle.plan.specs.Plan.{plan_of};
ghost use Rattle.format.specs.Text.{text};
ghost use Rattle.term.specs.Term.{Term};
ghost use Rattle.judge.specs.Campaign.{HoldsVariant};
ghost use Rattle.write.specs.Answer.{write_of};
ghost use Rattle.write.specs.Steps.{HoldsVariantPlan, placed_in};

use judge::Campaign;
use plan::{Refusal, Tables};

// The tables of variant v written out: the same edition, resources and activities, and the variant's
// nodes.
fn variant_of(campaign: &Campaign, v: u32) -> Tables
    requires { (t : Term) × HoldsVariant campaign.now t v }
    ensures { (t : Term) → HoldsVariant campaign.now t v → HoldsVariantPlan campaign.now.tables t v result }
{
    let mut tables = campaign.tables;
    let picked = pick::pick(campaign.tables.all_nodes(), &campaign.spans, v);
    let node = picked.node;
    tables.node = node;
    tables.nodes = picked.nodes;
    tables
}

// The text of a plan at the front of the area, if it has room there.
fn write_plan(tables: &Tables, area: &mut [u8]) -> Result<usize, Refusal>
    ensures { record { answer = result; area = area.new }
        ≡ placed_in area.old (text (plan_of tables.now)) }
{
    let needed = writer::text_length(tables);
    if area.len() < needed {
        return Err(Refusal::AreaTooShort(needed as u64));
    }
    Ok(writer::write_text(tables, area))
}

// WRITE: variant v as a plan file at the front of the area, and its length.
pub fn write(file: &[u8], v: u32, area: &mut [u8]) -> Result<usize, Refusal>
    ensures { record { answer = result; area = area.new }
        ≡ write_of file.now v area.old }
{
    let campaign = judge::judge(file)?;
    if v < campaign.variants {
        write_plan(&variant_of(&campaign, v), area)
    } else {
        Err(Refusal::NoSuchVariant)
    }
}
