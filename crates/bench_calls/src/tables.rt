// The table of the calls.
use crate::calls::{Times, time_calls};
use crate::hashing::{Tags, time_of_tags};
use base::refusals::Refusal;
use holding::settings::Settings;
use playing::keys::{row, single};
use playing::making::settings;
use replica::replicas::Replica;
use rules::receipts::Receipts;
use seal::row::KeyRow;
use seal::sealers::Sealer;
use seal::single::SingleKey;
use std::mem;

const SEALS: u32 = 4_000_000_000;

// One line: the call, its time, how often it goes into a second, the time of its tags alone and their share.
fn print_call(rt: &HostRuntime, name: &str, nanos: u64, tags: Tags) -> anyhow::Result<()> {
    let (alone, mixed) = time_of_tags(rt, tags)?;
    let nanos = nanos.max(1);
    let rate = 1_000_000_000 / nanos;
    let share = alone.min(1_000_000) * 100 / nanos;
    let count = tags.short.saturating_add(tags.long);
    println!(rt; "| {name} | {nanos} | {rate} | {count} | {alone} | {share} % | {mixed:02x} |")?;
    Ok(())
}

// The lines of a pool and a kind of seals, of which each takes so many tags to make.
fn print_pool(
    rt: &HostRuntime,
    kind: &str,
    settings: &Settings,
    times: &Times,
    make: u32,
) -> anyhow::Result<()> {
    let size = settings.pool.size();
    let look = 1 + settings.pool.quorum() as u32;
    println!(rt; "| **{size} members, {kind}** | | | | | | |")?;
    let looks = look.saturating_add(make);
    let lines = [
        (
            "begin",
            times.begin,
            Tags {
                short: make,
                long: make,
            },
        ),
        ("change", times.change, Tags { short: 1, long: 1 }),
        (
            "lock",
            times.lock,
            Tags {
                short: 0,
                long: looks,
            },
        ),
        (
            "decide",
            times.decide,
            Tags {
                short: 0,
                long: look,
            },
        ),
    ];
    for (name, nanos, tags) in lines {
        print_call(rt, name, nanos, tags)?;
    }
    Ok(())
}

// The times of a pool of that size, with sealers of one kind.
fn time_pool<S: Sealer + Drop, F: Fn(u8, u32) -> Result<S, Refusal>>(
    rt: &HostRuntime,
    settings: &Settings,
    size: u8,
    sealer: F,
) -> anyhow::Result<Times>
    requires { F.IsAlwaysCallable sealer }
{
    let mut sealers = Vec::new(rt.alloc());
    for member in 0..size {
        sealers.push(sealer(member, SEALS)?)?;
    }
    let own = sealer(size.saturating_sub(1), SEALS)?;
    time_calls(rt, rt.alloc(), settings, own, sealers.as_mut_slice())
}

pub fn print_calls(rt: &HostRuntime) -> anyhow::Result<()> {
    println!(rt; "| call | ns | calls a second | tags | ns of the tags alone | share | mixed |")?;
    println!(rt; "|---|---|---|---|---|---|---|")?;
    for size in [4u8, 7, 10] {
        let settings = settings(size as u32)?;
        let times = time_pool(rt, &settings, size, single)?;
        print_pool(rt, "seals of one tag", &settings, &times, 1)?;
        let times = time_pool(rt, &settings, size, row)?;
        print_pool(rt, "seals of ten tags", &settings, &times, 10)?;
    }
    println!(rt;
        "a replica: {} bytes with single keys, {} with a row",
        mem::size_of::<Replica<SingleKey, Receipts>>(),
        mem::size_of::<Replica<KeyRow, Receipts>>()
    )?;
    Ok(())
}
