// The five calls of the planner against the plain judgement, writer and enumerator, which share no code with it: on
// generated plans, on each of these with a fault put in, and on the campaigns.
#![tactic(auto)]

mod agreement;
mod areas;
mod asked;
mod campaigns;
mod checked;
mod faults;
mod rows;
mod timetables;
mod totals;
mod written;

use std::io::Write;
use totals::Totals;

const PLANS: u64 = 300;

// The plan of one more seed. Where a line cannot be written, here and below, the comparison goes on without it.
fn compare<W: Write>(out: &mut W, seed: u64, totals: &mut Totals) {
    let mut file = [0u8; 1024];
    let n = generator::generate(seed, &mut file);
    let Some(c) = agreement::compared(&file[..n]) else {
        let _ = writeln!(out, "not_compared={seed}");
        return;
    };
    totals.add(c.agrees, c.asked);
    if !c.agrees {
        let _ = writeln!(out, "differs={seed}");
    }
}

fn put_all<W: Write>(out: &mut W) {
    let mut totals = Totals::none();
    for seed in 0..PLANS {
        compare(out, seed, &mut totals);
    }
    let _ = writeln!(out, "plans={PLANS}");
    totals.put(out);
    faults::put_all(out);
    campaigns::put_all(out);
}

fn main(rt: HostRuntime) {
    put_all(&mut rt.stdout());
}
