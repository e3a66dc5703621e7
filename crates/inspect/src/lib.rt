// CHECK: is a timetable a feasible session of a variant?
#![tactic(auto)]

ghost use Rattle.std.specs.Prelude.{◌≡◌};
ghost use Rattle.plan.specs.Plan.{plan_of};
ghost use Rattle.term.specs.Term.{Term};
ghost use Rattle.variant.specs.Project.{variant_at};
ghost use Rattle.variant.specs.Timetable.{is_session};
ghost use Rattle.judge.specs.Campaign.{HoldsVariant};
ghost use Rattle.inspect.specs.Answer.{check_of};

use judge::Campaign;
use plan::Refusal;
use timetable::Timetable;

// Is the timetable a session of variant v of an accepted plan?
fn check_variant(campaign: &Campaign, v: u32, timetable: &Timetable) -> bool
    requires { (t : Term) × HoldsVariant campaign.now t v }
    ensures { (t : Term) → HoldsVariant campaign.now t v
        → result ≡ is_session (plan_of campaign.now.tables) (variant_at t v) timetable.now.starts }
{
    feasibility::is_session(
        &campaign.tables,
        &precedence::tabled(campaign, v),
        &timetable.starts,
    )
}

// CHECK: yes exactly if the timetable is a feasible session of variant v.
pub fn check(file: &[u8], v: u32, timetable: Timetable) -> Result<bool, Refusal>
    ensures { result ≡ check_of file.now v timetable.starts }
{
    let campaign = judge::judge(file)?;
    if v < campaign.variants {
        Ok(check_variant(&campaign, v, &timetable))
    } else {
        Err(Refusal::NoSuchVariant)
    }
}
