// What is asked of a replica's state when it judges a message.
ghost use Rattle.std.specs.Prelude.{◌≡◌, not, ◌&&◌, ◌||◌, ◌==◌};
ghost use Rattle.std.specs.Option.{option_map};
ghost use Rattle.ballots.specs.Views.{latest_view};
ghost use Rattle.base.specs.declared.pools.Pool.{Pool};
ghost use Rattle.judging.specs.Views.{sent_of, locked_of};
ghost use Rattle.protocol.specs.Judging.{latest_of, not_before, of_slip, round_in, sender_in, round_taken, repeats, other_page, contradicts, above_all, outranks, placed, goes_on};
ghost use Rattle.protocol.specs.Rounds.{has_place, locks_of};
ghost use Rattle.shelf.specs.Views.{shelf_view};
ghost use Rattle.holding.specs.Placing.{place_for, place_for_page, repeats_in};
ghost use Rattle.holding.specs.Views.{view_of};

use crate::states::State;
use ballots::latest::Latest;
use base::counters::{LAST_HEIGHT, Member, Round};
use base::pools::Pool;
use base::slips::Slip;
use message::shapes::{Head, Holds, LockMessage, Message};

// Whether the round of a latest statement is not above that round.
fn not_before(latest: &Option<Latest>, round: Round) -> bool
    ensures { result ≡ not_before round.0 (option_map latest_view latest.now) }
{
    latest.as_ref().is_none_or(|stated| stated.round <= round)
}

// Whether a statement repeats the latest one: of the same round, with the same page.
pub fn repeats(latest: &Option<Latest>, round: Round, page: &Option<Slip>) -> bool
    ensures { result ≡ repeats round.0 page.now (option_map latest_view latest.now) }
{
    latest
        .as_ref()
        .is_some_and(|stated| stated.round == round && stated.page == *page)
}

// Whether the latest statement is of the same round, with another page.
fn differs(latest: &Option<Latest>, round: Round, page: &Option<Slip>) -> bool
    ensures { result ≡ other_page round.0 page.now (option_map latest_view latest.now) }
{
    latest
        .as_ref()
        .is_some_and(|stated| stated.round == round && stated.page != *page)
}

impl State {
    // The latest statement of a member of the pool.
    pub fn latest_of(&self, pool: Pool, member: Member) -> Option<Latest>
        ensures { option_map latest_view result ≡ latest_of (view_of pool self.now) member.0 }
    {
        *self.statements.of(pool).get(member.0 as usize)?
    }

    // Whether a change under that head, with that page, repeats its sender's latest statement.
    pub fn repeated(&self, pool: Pool, head: &Head, page: &Option<Slip>) -> bool
        ensures { result ≡ repeats_in (view_of pool self.now) head.now page.now }
    {
        repeats(&self.latest_of(pool, head.sender), head.round, page)
    }

    // Whether a message of that round is taken: a change is neither of an earlier round than the replica's nor than its
    // sender's latest statement, a lock or select not of an earlier one than the replica's, and a release of that one.
    pub fn round_taken(&self, pool: Pool, m: &Message<'_>) -> bool
        ensures { result ≡ round_taken (view_of pool self.now) (sent_of m.now).head (sent_of m.now).content }
    {
        let round = m.head.round;
        match &m.holds {
            Holds::Change { .. } => self.round <= round
                && not_before(&self.latest_of(pool, m.head.sender), round),
            Holds::Lock(_) | Holds::Select(_) => self.round <= round,
            Holds::Commit { .. } | Holds::Decide(_) => true,
            Holds::Release { .. } => self.round == round,
        }
    }

    // Whether a message is a change with another page than its sender's latest statement of the round, or one in the
    // replica's own name that is no repeat.
    pub fn contradicts(&self, pool: Pool, own: Member, m: &Message<'_>) -> bool
        ensures { result ≡ contradicts own.0 (view_of pool self.now) (sent_of m.now).head (sent_of m.now).content }
    {
        match &m.holds {
            Holds::Change { page, .. } => self.gainsays(pool, own, &m.head, page),
            _ => false,
        }
    }

    // The same of a change under that head, with that page.
    fn gainsays(&self, pool: Pool, own: Member, head: &Head, page: &Option<Slip>) -> bool
        ensures { result ≡ (other_page (round_in head.now) page.now (latest_of (view_of pool self.now) (sender_in head.now)) || (sender_in head.now == own.0 && not (repeats_in (view_of pool self.now) head.now page.now))) }
    {
        let latest = self.latest_of(pool, head.sender);
        differs(&latest, head.round, page)
            || (head.sender == own && !repeats(&latest, head.round, page))
    }

    // Whether a lock's round is above that of every lock held.
    pub fn outranks(&self, inner: &LockMessage<'_>) -> bool
        ensures { (pool : Pool) → result ≡ outranks (view_of pool self.now) (locked_of inner.now) }
    {
        self.candidates.above_all(inner.head.round)
    }

    // Whether the slip of a page, if any, is among the candidates or there is room for it.
    fn page_placed(&self, page: &Option<Slip>) -> bool
        ensures { result ≡ place_for_page self.now page.now }
    {
        page.as_ref()
            .is_none_or(|slip| self.candidates.has_place(slip))
    }

    // Whether a change under that head, with that page, is a repeat or its slip has a place.
    fn change_placed(&self, pool: Pool, head: &Head, page: &Option<Slip>) -> bool
        ensures { result ≡ (repeats_in (view_of pool self.now) head.now page.now || place_for_page self.now page.now) }
    {
        self.repeated(pool, head, page) || self.page_placed(page)
    }

    // Whether the lock of a release has no effect or its slip has a place.
    fn lock_placed(&self, inner: &LockMessage<'_>) -> bool
        ensures { result ≡ (not (above_all (round_in inner.now.head) (locks_of (shelf_view self.now.candidates))) || place_for self.now inner.now.certificate.slip) }
    {
        let slip = inner.certificate.slip;
        !self.candidates.above_all(inner.head.round) || self.candidates.has_place(&slip)
    }

    // Whether there is a place for the slip of a message where one is needed.
    pub fn placed(&self, pool: Pool, m: &Message<'_>) -> bool
        ensures { result ≡ placed (view_of pool self.now) (sent_of m.now).head (sent_of m.now).content }
    {
        match &m.holds {
            Holds::Change { page, .. } => self.change_placed(pool, &m.head, page),
            Holds::Lock(c) | Holds::Select(c) => self.candidates.has_place(&c.slip),
            Holds::Commit { .. } | Holds::Decide(_) => true,
            Holds::Release { inner, .. } => self.lock_placed(inner),
        }
    }

    // Whether the book goes on after a message: a decide at the last height ends it.
    pub fn goes_on(&self, m: &Message<'_>) -> bool
        ensures { (pool : Pool) → result ≡ goes_on (view_of pool self.now) (sent_of m.now).content }
    {
        match &m.holds {
            Holds::Decide(_) => self.height.0 < LAST_HEIGHT,
            _ => true,
        }
    }
}
