// A walk through what the pool's members do with messages and with seals.
#![tactic(auto)]

mod layout;
mod sealing;

use layout::wire;
use sealing::seals;

fn run(rt: &HostRuntime) -> anyhow::Result<()> {
    println!(rt; "1. Messages")?;
    wire(rt)?;
    println!(rt; "2. Seals")?;
    seals(rt)
}

fn main(rt: HostRuntime) -> anyhow::Result<()> {
    run(&rt)
}
