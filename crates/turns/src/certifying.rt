// Certificates over the votes of the lowest members.
ghost use Rattle.std.specs.Prelude.{◌≡◌, ◌≤◌, length, take};
ghost use Rattle.base.specs.Pools.{quorum};
ghost use Rattle.protocol.specs.Turns.{votes_from};
ghost use Rattle.base.specs.Certified.{kind_of, sort_of, word_of};
ghost use Rattle.sending.specs.Drafts.{cert_for};
ghost use Rattle.sending.specs.Sending.{Sending, one_seal};

use ballots::tallies::{Ballot, lowest};
use base::bounded::Bounded;
use base::certified::Certified;
use base::counters::Member;
use base::pools::Pool;
use base::refusals::Refusal;
use base::seals::{Seal, Vote};
use base::slips::Slip;
use message::shapes::Head;
use outbox::drafts::Fill;
use seal::sealers::Sealer;
use sending::sends::send_certificate;

// A certificate to be sent: what it is, by whom and when, about which slip, for a pool of which size.
#[derive(Clone, Copy)]
pub(crate) struct Notice {
    pub(crate) certified: Certified,
    pub(crate) head: Head,
    pub(crate) slip: Slip,
    pub(crate) pool: Pool,
}

// A vote to fill what is left of a bounded list with.
fn blank_vote() -> Vote {
    Vote {
        member: Member(0),
        seal: Seal::new(&[0]).unwrap(),
    }
}

// Sends the certificate over the votes of the q lowest members whose records are for what is asked.
pub(crate) fn certify<S: Sealer, Q, B: Ballot<Q>>(
    sealer: &mut S,
    notice: &Notice,
    records: &[B],
    asked: &Q,
    out: &mut [u8],
    fill: &mut Fill,
) -> Result<Seal, Refusal>
    ensures { length records.now ≤ 256 → Sending (S.Sealer.meaning sealer.old) (S.Sealer.meaning sealer.new) (cert_for notice.now.head (kind_of notice.now.certified) (sort_of notice.now.certified) (word_of notice.now.certified) notice.now.slip (take (quorum notice.now.pool) (votes_from (λ b. B.Ballot.backed b asked.now) (λ b. B.Ballot.given b asked.now) 0 records.now))) fill.old.len fill.new.len out.old out.new (one_seal result) }
{
    let votes: Bounded<Vote, 10> = lowest(records, asked, notice.pool.quorum(), blank_vote());
    send_certificate(
        sealer,
        out,
        fill,
        notice.certified,
        notice.head,
        &notice.slip,
        votes.as_slice(),
    )
}
