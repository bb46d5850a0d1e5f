// Under which seals a message stands.
ghost use Rattle.std.specs.Prelude.{◌≡◌, ◌≤◌, true, [], ◌∷◌, length};
ghost use Rattle.base.specs.Refusals.{passing};
ghost use Rattle.base.specs.Statements.{statement_bytes};
ghost use Rattle.message.specs.Layout.{left, whole};
ghost use Rattle.message.specs.Views.{place_of};
ghost use Rattle.message.specs.Wholes.{WholeCert, Whole};
ghost use Rattle.protocol.specs.Judging.{vote_checks, cert_checks, checks_of, bad_seal};
ghost use Rattle.judging.specs.Parts.{own_check, change_checks, release_checks};
ghost use Rattle.judging.specs.Views.{sent_of, cert_of, locked_of, votes_at};

use base::counters::Member;
use base::refusals::Refusal;
use base::slips::Slip;
use base::statements::{Statement, Word};
use message::readers::{Part, Reader};
use message::shapes::{Certificate, Head, Holds, LockMessage, Message};
use seal::sealers::Checker;

// Who checks the seals of a message, or of the lock inside one, and what the head of that says.
#[derive(Clone, Copy)]
struct Seals<'a, C> {
    checker: &'a C,
    head: Head,
    inside: bool,
}

impl<C: Checker> Seals<'_, C> {
    // Refused where the checker does not recognise a part of the message, at its place, as a member's seal on the statement.
    fn check(
        &self,
        member: Member,
        statement: &Statement,
        part: Part<'_>,
        place: u8,
    ) -> Result<(), Refusal>
        ensures { result ≡ passing (bad_seal (C.Checker.recognised self.now.checker.now) (record { place = place; inside = self.now.inside; signer = member.0; statement = statement.now; seal = part.entry.bytes.now } ∷ [])) }
    {
        let bytes = statement.to_bytes();
        if self
            .checker
            .recognises(member, bytes.as_slice(), part.bytes)
        {
            Ok(())
        } else {
            Err(Refusal::BadSeal {
                place,
                inside: self.inside,
            })
        }
    }

    // Refused where a seal of the sender's own, at its place, is not recognised.
    fn own(&self, word: Word, page: Option<Slip>, part: Part<'_>, place: u8) -> Result<(), Refusal>
        ensures { result ≡ passing (bad_seal (C.Checker.recognised self.now.checker.now) (own_check self.now.inside place self.now.head word page part.entry.bytes.now ∷ [])) }
    {
        self.check(self.head.sender, &self.head.says(word, page), part, place)
    }

    // Refused at the first of the quorum's seals that is not recognised.
    // Kept: that all of them are there stays a premise, since anyone may fill in a certificate's public fields.
    fn votes(&self, statement: &Statement, votes: Reader<'_>) -> Result<(), Refusal>
        ensures { whole (place_of votes.entry) ≡ true → length (left (place_of votes.entry)) ≤ 7 → result ≡ passing (bad_seal (C.Checker.recognised self.now.checker.now) (vote_checks 2 self.now.inside statement.now (votes_at (place_of votes.entry)))) }
    {
        for (vote, place) in votes.zip(2u16..) {
            self.check(vote.member, statement, vote.part, place.min(255) as u8)?;
        }
        Ok(())
    }

    // Refused at the first seal of a certificate that is not recognised: the sender's own, then the quorum's, which
    // state another word about a page.
    fn certificate(
        &self,
        c: &Certificate<'_>,
        own: Word,
        others: Word,
        page: Option<Slip>,
    ) -> Result<(), Refusal>
        ensures { WholeCert c.now → result ≡ passing (bad_seal (C.Checker.recognised self.now.checker.now) (cert_checks self.now.inside own others page self.now.head (cert_of c.now))) }
    {
        self.own(own, Some(c.slip), c.own, 1)?;
        self.votes(&self.head.says(others, page), c.votes)
    }

    // Refused at the first of the two seals of a change that is not recognised.
    fn change(&self, page: Option<Slip>, rchg: Part<'_>, cand: Part<'_>) -> Result<(), Refusal>
        ensures { result ≡ passing (bad_seal (C.Checker.recognised self.now.checker.now) (change_checks self.now.inside self.now.head page rchg.entry.bytes.now cand.entry.bytes.now)) }
    {
        let first = u8::from(page.is_some());
        self.own(Word::Rchg, None, rchg, first)?;
        self.own(Word::Cand, page, cand, first + 1)
    }

    // Refused at the first seal of a release that is not recognised: those of the lock inside, then the sender's own.
    #[tactic(auto, using(crate::proofs::Firsts::goes_on))]
    fn release(&self, inner: &LockMessage<'_>, own: Part<'_>) -> Result<(), Refusal>
        ensures { WholeCert inner.now.certificate → result ≡ passing (bad_seal (C.Checker.recognised self.now.checker.now) (release_checks self.now.inside self.now.head (locked_of inner.now) own.entry.bytes.now)) }
    {
        let c = &inner.certificate;
        let lock = Seals {
            checker: self.checker,
            head: inner.head,
            inside: true,
        };
        lock.certificate(c, Word::Lock, Word::Cand, Some(c.slip))?;
        self.own(Word::Rlse, Some(c.slip), own, 1)
    }
}

// Refused at the first seal of a message that is not recognised, with its place in the table of contents. It says so of
// every message that was read.
pub fn first_bad_seal<C: Checker>(checker: &C, m: &Message<'_>) -> Result<(), Refusal>
    ensures { Whole m.now → result ≡ passing (bad_seal (C.Checker.recognised checker.now) (checks_of (sent_of m.now).head (sent_of m.now).content)) }
{
    let seals = Seals {
        checker,
        head: m.head,
        inside: false,
    };
    match &m.holds {
        Holds::Change { page, rchg, cand } => seals.change(*page, *rchg, *cand),
        Holds::Lock(c) => seals.certificate(c, Word::Lock, Word::Cand, Some(c.slip)),
        Holds::Select(c) => seals.certificate(c, Word::Slct, Word::Rchg, None),
        Holds::Commit { slip, seal } => seals.own(Word::Cmit, Some(*slip), *seal, 1),
        Holds::Decide(c) => seals.certificate(c, Word::Dcid, Word::Cmit, Some(c.slip)),
        Holds::Release { inner, own, .. } => seals.release(inner, *own),
    }
}
