// What the programs that time share: the clock, and a chain of tags of SipHash alone.
#![tactic(auto)]

use seal::siphash::siphash_after;
use std::time::Instant;
use std::{array, io};

const RUNS: u32 = 2_000_000;

const KEY: [u8; 16] = [0, 1, 2, 3, 4, 5, 6, 7, 8, 9, 10, 11, 12, 13, 14, 15];

pub fn nanos_since(rt: &HostRuntime, start: &Instant) -> io::Result<u64> {
    let nanos = start.elapsed(rt)?.as_nanos();
    Ok(u64::try_from(nanos).unwrap_or(u64::MAX))
}

// Each tag's first byte comes from the tag before, so that no two can be made at once.
fn chain(statement: &[u8], runs: u32) -> u64 {
    (0..runs).fold(
        0,
        |tag: u64, _| siphash_after(&KEY, (tag % 256) as u8, statement),
    )
}

// The time of a tag on a statement of 84 bytes.
pub fn print_tag(rt: &HostRuntime) -> io::Result<()> {
    let statement: [u8; 100] = array::from_fn(|i| i as u8);
    let words = std::env::args(rt)?.count();
    // 84, and the compiler cannot know it
    let length = 82 + words.min(2);
    let start = Instant::now(rt)?;
    let last = chain(&statement[..length], RUNS);
    let tenths = start.elapsed(rt)?.as_nanos() * 10 / RUNS as u128;
    println!(rt;
        "proved, 85 bytes: {}.{} ns a tag (last {last:016x})",
        tenths / 10,
        tenths % 10
    )
}
