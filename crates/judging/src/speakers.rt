// Who speaks: members of the pool, and leaders where it takes one.
ghost use Rattle.std.specs.Prelude.{◌≡◌, true};
ghost use Rattle.message.specs.Layout.{whole};
ghost use Rattle.message.specs.Views.{place_of};
ghost use Rattle.message.specs.Wholes.{WholeCert, WholeHolds, Whole};
ghost use Rattle.protocol.specs.Judging.{all_members, from_leader, cert_familiar, familiar_in, familiar};
ghost use Rattle.judging.specs.Views.{sent_of, content_in, cert_of, votes_at};

use base::pools::Pool;
use message::readers::Reader;
use message::shapes::{Certificate, Head, Holds, Message};

// Whether neither the sender of a message nor a member in whose name a seal stands is a stranger, and a lock, select or
// decide comes from its leader. It says so of every message that was read.
// Kept: that it was read stays a premise, since anyone may fill in a message's public fields.
pub fn familiar(pool: Pool, m: &Message<'_>) -> bool
    ensures { Whole m.now → result ≡ familiar pool (sent_of m.now) }
{
    pool.has(m.head.sender) && holds_familiar(pool, m.head, &m.holds)
}

fn holds_familiar(pool: Pool, head: Head, holds: &Holds<'_>) -> bool
    ensures { WholeHolds holds.now → result ≡ familiar_in pool head (content_in holds.now) }
{
    match holds {
        Holds::Change { .. } | Holds::Commit { .. } => true,
        Holds::Lock(c) | Holds::Select(c) | Holds::Decide(c) => cert_familiar(pool, head, c),
        Holds::Release { inner, .. } => cert_familiar(pool, inner.head, &inner.certificate),
    }
}

fn cert_familiar(pool: Pool, head: Head, c: &Certificate<'_>) -> bool
    ensures { WholeCert c.now → result ≡ cert_familiar pool head (cert_of c.now) }
{
    all_members(pool, c.votes) && from_leader(pool, head)
}

fn from_leader(pool: Pool, head: Head) -> bool
    ensures { result ≡ from_leader pool head }
{
    head.sender == pool.leader(head.height, head.round)
}

// Whether the members in whose names the bodies before the reader stand are the pool's.
// Kept: tried, `all` over a reader leaves a goal on the bodies it drained, which the loop shows with one invariant.
fn all_members(pool: Pool, votes: Reader<'_>) -> bool
    ensures { whole (place_of votes.entry) ≡ true → result ≡ all_members pool (votes_at (place_of votes.entry)) }
{
    for vote in votes {
        if !pool.has(vote.member) {
            return false;
        }
    }
    true
}
