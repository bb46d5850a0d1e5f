// Timings, told only where an argument asks for them, so that what is written without one is always the same.
#![tactic(auto)]

mod calls;
mod hashing;
mod making;
mod tables;

use std::env;
use tables::print_calls;
use timing::print_tag;

// `tag` asks for the time of one tag, any other word for those of a replica's calls.
fn run(rt: &HostRuntime) -> anyhow::Result<()> {
    match env::args(rt)?.nth(1) {
        None => println!(rt; "bench: give any argument for the timings")?,
        Some(word) if word.as_str() == "tag" => print_tag(rt)?,
        Some(_) => print_calls(rt)?,
    }
    Ok(())
}

fn main(rt: HostRuntime) -> anyhow::Result<()> {
    run(&rt)
}
