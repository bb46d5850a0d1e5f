// Timing calls of a replica: page after page is entered, and each call is timed by itself.
use crate::making::{Messages, Page, make};
use base::counters::Height;
use base::refusals::Refusal;
use base::slips::{Mark, Slip};
use holding::settings::Settings;
use outbox::drafts::Fill;
use protocol::answers::Answer;
use replica::replicas::Replica;
use rules::receipts::Receipts;
use seal::sealers::Sealer;
use std::alloc::Global;
use std::io;
use std::time::Instant;
use timing::nanos_since;

const ROOM: usize = 1024;

// How many pages are entered for one sum, and how many sums there are.
const PAGES: u32 = 50;

const SUMS: u32 = 200;

// Nanoseconds by call.
#[derive(Clone, Copy)]
pub struct Times {
    pub begin: u64,
    pub change: u64,
    pub lock: u64,
    pub decide: u64,
}

impl Times {
    fn all(nanos: u64) -> Times {
        Times {
            begin: nanos,
            change: nanos,
            lock: nanos,
            decide: nanos,
        }
    }

    // Of each call what comes of its two times.
    fn with<F: Fn(u64, u64) -> u64>(self, other: Times, each: F) -> Times
        requires { F.IsAlwaysCallable each }
    {
        Times {
            begin: each(self.begin, other.begin),
            change: each(self.change, other.change),
            lock: each(self.lock, other.lock),
            decide: each(self.decide, other.decide),
        }
    }

    // The time of one call, without that of reading the clock.
    fn of_one(self, clock: u64) -> Times {
        self.with(
            Times::all(clock),
            |sum, clock| (sum / PAGES as u64).saturating_sub(clock),
        )
    }
}

// The nanoseconds of one call; a refusal ends the measurement.
fn time<F: FnOnce() -> Result<Answer, Refusal>>(rt: &HostRuntime, call: F) -> anyhow::Result<u64>
    requires { F.IsAlwaysCallable call }
{
    let start = Instant::now(rt)?;
    let answer = call();
    let nanos = nanos_since(rt, &start)?;
    answer?;
    Ok(nanos)
}

// Times one call with that message.
fn time_take<S: Sealer>(
    rt: &HostRuntime,
    book: &mut Replica<S, Receipts>,
    message: &[u8],
    out: &mut [u8],
) -> anyhow::Result<u64> {
    let mut fill = Fill { len: 0 };
    time(rt, || book.take(message, out, &mut fill))
}

// The mean time of taking these changes.
fn time_changes<S: Sealer>(
    rt: &HostRuntime,
    book: &mut Replica<S, Receipts>,
    changes: &[Vec<u8>],
    out: &mut [u8],
) -> anyhow::Result<u64> {
    let sum = changes
        .iter()
        .try_fold(0, |sum: u64, message| -> anyhow::Result<u64> {
            Ok(sum.saturating_add(time_take(rt, book, message.as_slice(), out)?))
        })?;
    Ok(sum / changes.len().max(1) as u64)
}

// Enters one page: begins, takes the changes, whose mean time is kept, the lock and the decide.
fn time_page<S: Sealer>(
    rt: &HostRuntime,
    book: &mut Replica<S, Receipts>,
    slip: &Slip,
    messages: &Messages,
) -> anyhow::Result<Times> {
    let mut out = [0u8; ROOM];
    let mut fill = Fill { len: 0 };
    book.offer(slip)?;
    let begin = time(rt, || book.begin(&mut out, &mut fill))?;
    let change = time_changes(rt, book, messages.changes.as_slice(), &mut out)?;
    let lock = time_take(rt, book, messages.lock.as_slice(), &mut out)?;
    let decide = time_take(rt, book, messages.decide.as_slice(), &mut out)?;
    Ok(Times {
        begin,
        change,
        lock,
        decide,
    })
}

// The slip of a height, on the page before.
fn slip_of(parent: Mark, height: Height) -> Slip {
    let mut own = [9u8; 32];
    own[..4].copy_from_slice(&height.0.to_be_bytes());
    Slip {
        parent,
        own: Mark(own),
        lots: 1 + height.0 % 200,
        maker: height.0 % 10,
    }
}

// Enters so many pages and adds the times up.
fn time_pages<S: Sealer>(
    rt: &HostRuntime,
    heap: Global,
    book: &mut Replica<S, Receipts>,
    settings: &Settings,
    sealers: &mut [S],
) -> anyhow::Result<Times> {
    (0..PAGES).try_fold(Times::all(0), |sum, _| -> anyhow::Result<Times> {
        let slip = slip_of(book.last_mark(), book.height());
        let page = Page {
            pool: settings.pool,
            height: book.height(),
            slip,
        };
        let messages = make(heap, sealers, &page)?;
        let times = time_page(rt, book, &slip, &messages)?;
        Ok(sum.with(times, u64::saturating_add))
    })
}

// What reading the clock twice takes.
fn time_clock(rt: &HostRuntime) -> io::Result<u64> {
    (0..SUMS).try_fold(u64::MAX, |least: u64, _| -> io::Result<u64> {
        let sum = (0..PAGES).try_fold(0, |sum: u64, _| -> io::Result<u64> {
            Ok(sum.saturating_add(nanos_since(rt, &Instant::now(rt)?)?))
        })?;
        Ok(least.min(sum / PAGES as u64))
    })
}

// The times of one call each: the least of many means.
pub fn time_calls<S: Sealer + Drop>(
    rt: &HostRuntime,
    heap: Global,
    settings: &Settings,
    own: S,
    sealers: &mut [S],
) -> anyhow::Result<Times> {
    let mut book = Replica::open(*settings, own, Receipts::new());
    let least = (0..SUMS).try_fold(Times::all(u64::MAX), |least, _| -> anyhow::Result<Times> {
        let sum = time_pages(rt, heap, &mut book, settings, sealers)?;
        Ok(least.with(sum, u64::min))
    })?;
    Ok(least.of_one(time_clock(rt)?))
}
