// The tags of a call, alone.
use base::counters::Member;
use playing::keys::key_row;
use seal::tagging::tag;
use std::io;
use std::time::Instant;
use timing::nanos_since;

// How often the tags of a call are computed for one timing, and how many timings there are.
const TIMES: u64 = 50;

const RUNS_OF_TAGS: u32 = 400;

// How many tags a call computes: on round changes, of 12 bytes, and on other statements, of 84.
#[derive(Clone, Copy)]
pub struct Tags {
    pub short: u32,
    pub long: u32,
}

// Computes so many tags of a statement, each under a key of its own, and mixes their first bytes in.
fn mix(keys: &[[u8; 16]; 10], statement: &[u8], count: u32, seed: u8, mixed: u8) -> u8 {
    let keys = keys.iter().cycle().take(count as usize);
    keys.fold(
        mixed,
        |mixed, key| mixed ^ tag(key, Member(seed), statement)[0],
    )
}

// Computes so many tags, as a call does. They begin with the seed, which differs from run to run.
fn compute(keys: &[[u8; 16]; 10], statement: &[u8; 84], tags: Tags, seed: u8) -> u8 {
    let mixed = mix(keys, &statement[..12], tags.short, seed, seed);
    mix(keys, statement, tags.long, seed, mixed)
}

// The nanoseconds of so many tags: of many runs the one that took least. What comes of the tags is
// handed back, so that none is left out.
pub fn time_of_tags(rt: &HostRuntime, tags: Tags) -> io::Result<(u64, u8)> {
    let keys = key_row(3);
    let statement = [7u8; 84];
    (0..RUNS_OF_TAGS).try_fold(
        (u64::MAX, 0),
        |(least, mixed), _| -> io::Result<(u64, u8)> {
            let start = Instant::now(rt)?;
            let mixed = (0..TIMES).fold(mixed, |mixed, _| compute(&keys, &statement, tags, mixed));
            Ok((least.min(nanos_since(rt, &start)? / TIMES), mixed))
        },
    )
}
