// Three counters that must never be confused: a height, a round and a member number.
ghost use Rattle.std.specs.Prelude.{◌≡◌, ◌≤◌, ◌&&◌, ◌+◌, cond, nat_lt, Some, None};
ghost use Rattle.std.specs.Option.{option_map};
ghost use Rattle.base.specs.Pools.{height_in_range, round_in_range};

// The number of a page in the receipt book, from 1 to LAST_HEIGHT.
#[derive(Clone, Copy, PartialEq, Eq, PartialOrd, Ord, Debug)]
pub struct Height(pub u32);

// The number of an attempt to agree on one page, from 0 to LAST_ROUND.
#[derive(Clone, Copy, PartialEq, Eq, PartialOrd, Ord, Debug)]
pub struct Round(pub u32);

// The number of a member of the pool, from 0.
#[derive(Clone, Copy, PartialEq, Eq, PartialOrd, Ord, Debug)]
pub struct Member(pub u8);

pub const FIRST_HEIGHT: u32 = 1;

pub const LAST_HEIGHT: u32 = 4_000_000_000;

pub const LAST_ROUND: u32 = 65_535;

impl Height {
    pub fn in_range(self) -> bool
        ensures { result ≡ height_in_range self }
    {
        (FIRST_HEIGHT..=LAST_HEIGHT).contains(&self.0)
    }

    // The height above it; none above the last.
    pub fn next(self) -> Option<Height>
        ensures { option_map (λ h. h.0) result ≡ cond (nat_lt self.0 4000000000) (Some (self.0 + 1)) None }
    {
        (self.0 < LAST_HEIGHT).then(|| Height(self.0 + 1))
    }
}

impl Round {
    pub fn in_range(self) -> bool
        ensures { result ≡ round_in_range self }
    {
        self.0 <= LAST_ROUND
    }

    // The round above it; none above the last.
    pub fn next(self) -> Option<Round>
        ensures { option_map (λ r. r.0) result ≡ cond (nat_lt self.0 65535) (Some (self.0 + 1)) None }
    {
        (self.0 < LAST_ROUND).then(|| Round(self.0 + 1))
    }
}
