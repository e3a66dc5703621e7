// READ: the number of activities, of nodes and of variants.
#![tactic(auto)]

ghost use Rattle.std.specs.Prelude.{◌≡◌};
ghost use Rattle.read.specs.Answer.{read_of};

use plan::Refusal;

// How many activities, nodes and variants a plan has.
#[derive(Clone, Copy, Debug, PartialEq, Eq)]
pub struct Counts {
    pub acts: usize,
    pub nodes: usize,
    pub variants: u32,
}

pub fn read(file: &[u8]) -> Result<Counts, Refusal>
    ensures { result ≡ read_of file.now }
{
    let campaign = judge::judge(file)?;
    Ok(Counts {
        acts: campaign.tables.acts,
        nodes: campaign.tables.nodes,
        variants: campaign.variants,
    })
}
