// The judgement of a plan file that every call starts with.
#![tactic(auto)]

ghost use Rattle.plan.specs.Plan.{plan_of, Ranged};
ghost use Rattle.term.specs.Term.{term_of};
ghost use Rattle.judge.specs.Judge.{judge_term};
ghost use Rattle.judge.specs.Judged.{Says, Judges};

use pick::Spans;
use plan::{Refusal, Tables};

// An accepted plan: its tables, where each of its terms ends and how many variants it has, and V.
#[derive(Clone, Copy)]
pub struct Campaign {
    pub tables: Tables,
    pub spans: Spans,
    pub variants: u32,
}

// What rests on the nodes: one whole term, no activity twice in a variant, and not too many variants.
fn judge_term(tables: Tables) -> Result<Campaign, Refusal>
    requires { Ranged tables }
    ensures { Says (judge_term (plan_of tables) (term_of (plan_of tables).nodes)) result }
{
    let nodes = tables.all_nodes();
    let Some(is_twice) = term_reader::read_term(nodes) else {
        return Err(Refusal::NotOneTerm);
    };
    if is_twice {
        return Err(Refusal::Twice);
    }
    let spans = pick::spans_of(nodes);
    let variants = spans[0].count;
    if plan::MOST_VARIANTS < variants {
        return Err(Refusal::TooManyVariants);
    }
    Ok(Campaign {
        tables,
        spans,
        variants,
    })
}

// The judgement of a plan file.
pub fn judge(file: &[u8]) -> Result<Campaign, Refusal>
    ensures { Judges file.now result }
{
    judge_term(parser::parse_file(file)?)
}
