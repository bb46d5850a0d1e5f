// Times in ticks, and how long the stages last.
ghost use Rattle.std.specs.Prelude.{◌≡◌};
ghost use Rattle.std.specs.List.{list_all};
ghost use Rattle.holding.specs.Timing.{times_lawful};
ghost use Rattle.protocol.specs.State.{grown, timely};

use base::counters::Round;

// Times in ticks: for sending a change again (d0), for the leader's lock (d1), for its decide (d2), for releases (d3), and
// before a leader selects though some of the pool are missing (g).
#[derive(Clone, Copy)]
pub struct Times {
    pub d0: u32,
    pub d1: u32,
    pub d2: u32,
    pub d3: u32,
    pub g: u32,
}

// A time is from 1 to 60,000 ticks.
pub fn is_timely(ticks: u32) -> bool
    ensures { result ≡ timely ticks }
{
    (1..=60_000).contains(&ticks)
}

// Whether each of them is a time.
fn are_timely(times: &[u32]) -> bool
    ensures { result ≡ list_all timely times.now }
{
    times.iter().all(|t| is_timely(*t))
}

// As long in round 0, and so many times as long in a round above it.
pub(crate) fn grow(ticks: u32, round: Round) -> u64
    ensures { result ≡ grown ticks round.0 }
{
    ticks as u64 * round.0.max(1) as u64
}

impl Times {
    // Whether each is a time, and g is below d1.
    pub(crate) fn are_lawful(&self) -> bool
        ensures { result ≡ times_lawful self.now }
    {
        are_timely(&[self.d0, self.d1, self.d2, self.d3, self.g]) && self.g < self.d1
    }
}
