// READ by the definitions: the plan and the number of its variants, or the refusal that rests on the file alone.
use crate::VARIANTS;
use crate::refusal::Refusal;
use crate::tables::Plan;

#[derive(Clone, Copy)]
pub enum Judged {
    Accepted { plan: Plan, variants: u32 },
    Refused(Refusal),
    // the variants are too many to look at, and none of those looked at has an activity twice: the file is refused, and
    // it is not known by which refusal
    Unknown,
}

// The most variants that are looked at.
const LOOKED_AT: usize = 2 * VARIANTS;

fn of_plan(plan: Plan) -> Judged {
    if plan.variants().take(LOOKED_AT).any(|v| v.twice) {
        return Judged::Refused(Refusal::Twice);
    }
    let count = plan.variants().take(LOOKED_AT + 1).count();
    if LOOKED_AT < count {
        return Judged::Unknown;
    }
    if VARIANTS < count {
        return Judged::Refused(Refusal::TooManyVariants);
    }
    Judged::Accepted {
        plan,
        variants: count as u32,
    }
}

fn joined(file: &[u8]) -> Result<Plan, Refusal> {
    let mut plan = crate::text::read(file)?;
    plan.join().ok_or(Refusal::NoTerm)?;
    Ok(plan)
}

pub fn judge(file: &[u8]) -> Judged {
    match joined(file) {
        Ok(plan) => of_plan(plan),
        Err(refusal) => Judged::Refused(refusal),
    }
}
