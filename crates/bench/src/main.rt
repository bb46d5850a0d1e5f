// Timings, told only where an argument asks for them, so that what is written without one is always the same.
#![tactic(auto)]

use std::{env, io};
use timing::print_tag;

fn main(rt: HostRuntime) -> io::Result<()> {
    if env::args(&rt)?.count() < 2 {
        return println!(rt; "bench: give any argument for the timings");
    }
    print_tag(&rt)
}
