// The pool's size and what follows from it.
ghost use Rattle.std.specs.Prelude.{◌≡◌, ◌<◌, nat_lt};
ghost use Rattle.std.specs.Option.{ok_or};
ghost use Rattle.base.specs.Pools.{tolerance, members, quorum, leader_of, pool_of};
ghost use Rattle.base.specs.declared.refusals.Refusal.TheVariants.{Unlawful};

use crate::counters::{Height, Member, Round};
use crate::refusals::Refusal;

// How many members the pool has: n = 3t + 1, of which at most t may lie.
#[derive(Clone, Copy, PartialEq, Eq, Debug)]
pub enum Pool {
    Four,
    Seven,
    Ten,
}

impl TryFrom<u32> for Pool {
    type Error = Refusal;

    ghost try_from_gives = { λ n r. r ≡ ok_or (pool_of n) Unlawful };

    // The pool of so many members: there are 4, 7 or 10.
    fn try_from(members: u32) -> Result<Self, Refusal> {
        match members {
            4 => Ok(Pool::Four),
            7 => Ok(Pool::Seven),
            10 => Ok(Pool::Ten),
            _ => Err(Refusal::Unlawful),
        }
    }
}

impl Pool {
    // t: how many members may lie.
    // Kept: three tables, as the rule has them, and not sums over one of them.
    pub fn tolerance(self) -> usize
        ensures { result ≡ tolerance self }
    {
        match self {
            Pool::Four => 1,
            Pool::Seven => 2,
            Pool::Ten => 3,
        }
    }

    // n: how many members there are.
    pub fn size(self) -> usize
        ensures { result ≡ members self }
    {
        match self {
            Pool::Four => 4,
            Pool::Seven => 7,
            Pool::Ten => 10,
        }
    }

    // q: how many members are a quorum.
    pub fn quorum(self) -> usize
        ensures { result ≡ quorum self }
    {
        match self {
            Pool::Four => 3,
            Pool::Seven => 5,
            Pool::Ten => 7,
        }
    }

    // Whether the number is one of the pool's.
    pub fn has(self, member: Member) -> bool
        ensures { result ≡ nat_lt member.0 (members self) }
    {
        (member.0 as usize) < self.size()
    }

    // Whose turn it is to lead that round of that height.
    pub fn leader(self, height: Height, round: Round) -> Member
        ensures { result.0 ≡ leader_of self height round }
    {
        let turn = height.0 as u64 + round.0 as u64;
        let n = self.size() as u64;
        Member((turn % n) as u8)
    }
}
