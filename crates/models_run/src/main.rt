// models_run: drains and checks models from a fixed seed, whole and damaged, beside plain writings of the rules.
#![tactic(auto)]

use crate::running::run_all;
use anyhow::ensure;

mod changing;
mod comparing;
mod damage;
mod faults;
mod floods;
mod land;
mod lent;
mod making;
mod numbers;
mod rows;
mod rule;
mod running;
mod tables;
mod tally;
mod ways;

fn main(rt: HostRuntime) -> anyhow::Result<()> {
    let tallies = run_all(rt.alloc())?;
    for (comparison, tally) in &tallies.counts {
        println!(rt; "{comparison}: {tally}")?;
    }
    let every = tallies.expected_every_refusal();
    println!(rt; "every refusal was expected somewhere: {every}")?;
    ensure!(every && tallies.all_agree(), "some answers differ");
    Ok(())
}
