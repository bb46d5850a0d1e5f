// The members' latest statements.
ghost use Rattle.std.specs.Prelude.{◌≡◌, ℕ, ◌<◌, ◌≤◌, length, replicate, Some, None, slice_index_or, slice_set};
ghost use Rattle.std.specs.Option.{option_map};
ghost use Rattle.base.specs.Pools.{members};
ghost use Rattle.base.specs.Seals.{seal_bytes};
ghost use Rattle.protocol.specs.Rounds.{of_round, highest_round};
ghost use Rattle.protocol.specs.State.{tally};
ghost use Rattle.protocol.specs.Turns.{page_of, agreed_slip, agreed_of};
ghost use Rattle.ballots.specs.Asking.{passes, wanted, backing, sealing, calls_for};
ghost use Rattle.ballots.specs.Views.{latest_view, latest_list, statements_view, round_number, round_in};

use crate::tallies::{Ballot, count};
use base::counters::{Member, Round};
use base::pools::Pool;
use base::seals::Seal;
use base::slips::Slip;

// The latest statement of a member: its round, the page it names or none, its two seals.
#[derive(Clone, Copy)]
pub struct Latest {
    pub round: Round,
    pub page: Option<Slip>,
    pub rchg: Seal,
    pub cand: Seal,
}

// A place for each of ten members.
#[derive(Clone, Copy)]
pub struct Statements([Option<Latest>; 10]);

impl Statements {
    // No member has stated anything.
    #[tactic(auto, using(crate::proofs::Placing::none_stated))]
    pub fn empty() -> Statements
        ensures { (n : ℕ) → n ≤ 10 → statements_view n result ≡ replicate n None }
    {
        Statements([None; 10])
    }

    // Keeps the latest statement of that member in place of the one before; nothing where there is no such place.
    // Kept: the write is by index, since after `get_mut` of a slice only the length is known.
    #[tactic(auto, using(crate::proofs::Placing::stated_set))]
    pub fn set(&mut self, member: Member, latest: Latest)
        ensures { (n : ℕ) → n ≤ 10 → statements_view n self.new ≡ slice_set (statements_view n self.old) member.0 (Some (latest_view latest)) }
    {
        if member.0 < 10 {
            self.0[member.0 as usize] = Some(latest);
        }
    }

    // The latest statement of that member; none where there is no such place.
    #[tactic(auto, using(crate::proofs::Placing::stated_at))]
    pub fn get(&self, member: Member) -> Option<Latest>
        ensures place { (n : ℕ) → n ≤ 10 → member.0 < n → option_map latest_view result ≡ slice_index_or (statements_view n self.now) member.0 None }
        ensures past { 10 ≤ member.0 → result ≡ None }
    {
        *self.0.get(member.0 as usize)?
    }

    // The places of the pool's members.
    pub fn of(&self, pool: Pool) -> &[Option<Latest>]
        ensures places { latest_list result.now ≡ statements_view (members pool) self.now }
        ensures long { length result.now ≡ members pool }
    {
        &self.0[..pool.size()]
    }
}

// What is asked of a latest statement: to be of a round, or to name a slip in it.
#[derive(Clone, Copy)]
pub enum Asked {
    OfRound(Round),
    Naming(Round, Slip),
}

impl Latest {
    // Whether the statement is what is asked.
    fn passes(&self, asked: &Asked) -> bool
        ensures { result ≡ passes asked.now (Some (latest_view self.now)) }
    {
        match asked {
            Asked::OfRound(round) => self.round == *round,
            Asked::Naming(round, slip) => self.round == *round
                && self.page.as_ref().is_some_and(|page| page == slip),
        }
    }

    // The seal that is wanted of it.
    fn wanted(&self, asked: &Asked) -> Seal
        ensures { seal_bytes result ≡ wanted asked.now (Some (latest_view self.now)) }
    {
        match asked {
            Asked::OfRound(_) => self.rchg,
            Asked::Naming(_, _) => self.cand,
        }
    }
}

impl Ballot<Asked> for Option<Latest> {
    ghost backed = { backing };

    ghost given = { sealing };

    fn backs(&self, asked: &Asked) -> bool {
        self.as_ref().is_some_and(|latest| latest.passes(asked))
    }

    fn seal(&self, asked: &Asked) -> Option<Seal> {
        self.as_ref()
            .filter(|latest| latest.passes(asked))
            .map(|latest| latest.wanted(asked))
    }
}

// How many latest statements are of the round.
#[tactic(auto, using(crate::proofs::Counting::tally_map))]
pub fn in_round(latest: &[Option<Latest>], round: Round) -> usize
    ensures { result ≡ tally (of_round round.0) (latest_list latest.now) }
{
    count(latest, &Asked::OfRound(round))
}

// Who is called to a round: its own round, whether it is resting, and the pool's tolerance.
#[derive(Clone, Copy)]
pub struct Called {
    pub own: Round,
    pub resting: bool,
    pub tolerance: usize,
}

impl Called {
    // Whether the round is ahead, and at least tolerance + 2 latest statements are of it.
    fn to(&self, latest: &[Option<Latest>], round: Round) -> bool
        ensures { result ≡ calls_for self.now.own.0 self.now.resting self.now.tolerance (latest_list latest.now) round.0 }
    {
        let ahead = if self.resting {
            self.own <= round
        } else {
            self.own < round
        };
        if !ahead {
            return false;
        }
        let calls = in_round(latest, round);
        calls >= 2 && calls - 2 >= self.tolerance
    }

    // The highest round of a latest statement that is ahead, not below its own for a resting replica and else above it,
    // and that at least tolerance + 2 latest statements are of.
    pub fn highest(&self, latest: &[Option<Latest>]) -> Option<Round>
        ensures { option_map round_number result ≡ highest_round (calls_for self.now.own.0 self.now.resting self.now.tolerance (latest_list latest.now)) (latest_list latest.now) }
    {
        latest
            .iter()
            .filter_map(round_of)
            .filter(|round| self.to(latest, *round))
            .max()
    }
}

// The round of a member's latest statement.
fn round_of(stated: &Option<Latest>) -> Option<Round>
    ensures { result ≡ option_map round_in stated.now }
{
    Some(stated.as_ref()?.round)
}

// The page that a member's latest statement names.
fn page_of(stated: &Option<Latest>) -> Option<Slip>
    ensures { result ≡ page_of (option_map latest_view stated.now) }
{
    stated.as_ref()?.page
}

// Whether a quorum of latest statements of the round names the slip.
fn is_agreed(latest: &[Option<Latest>], quorum: usize, round: Round, slip: Slip) -> bool
    ensures { result ≡ agreed_slip quorum round.0 (latest_list latest.now) slip }
{
    quorum <= count(latest, &Asked::Naming(round, slip))
}

// The slip that a quorum of latest statements of the round names.
pub fn agreed(latest: &[Option<Latest>], quorum: usize, round: Round) -> Option<Slip>
    ensures { result ≡ agreed_of quorum round.0 (latest_list latest.now) (latest_list latest.now) }
{
    latest
        .iter()
        .filter_map(page_of)
        .find(|slip| is_agreed(latest, quorum, round, *slip))
}
