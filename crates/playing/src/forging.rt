// Messages made by hand and sealed by one sealer, as a lying member makes them.
use crate::faults::Fault;
use base::certified::Certified;
use base::counters::{Height, Round};
use base::refusals::Refusal;
use base::seals::{Seal, Vote};
use base::slips::Slip;
use base::stages::Kind;
use base::statements::{Statement, Word};
use message::shapes::Head;
use outbox::drafts::Fill;
use outbox::writers::{write_certificate, write_change, write_commit, write_release};
use seal::sealers::Sealer;
use seal::stating::seal_statement;
use std::alloc::Global;

const ROOM: usize = 1024;

// A seal on a statement with that word.
// Kept: beside the method, since it asks for no heap.
pub fn sealed<S: Sealer>(
    sealer: &mut S,
    word: Word,
    height: Height,
    round: Round,
    page: Option<Slip>,
) -> Result<Seal, Refusal> {
    let statement = Statement {
        word,
        height,
        round,
        page,
    };
    seal_statement(sealer, &statement)
}

// The same with the name of the member that sealed.
// Kept: beside the method, since it asks for no heap.
pub fn vote<S: Sealer>(
    sealer: &mut S,
    word: Word,
    height: Height,
    round: Round,
    page: Option<Slip>,
) -> Result<Vote, Refusal> {
    let member = sealer.member();
    let seal = sealed(sealer, word, height, round, page)?;
    Ok(Vote { member, seal })
}

// A lock, a select or, for any other kind, a decide on a page, with the votes given.
// Kept: beside the method, since it takes any kind.
pub fn certificate<S: Sealer>(
    heap: Global,
    sealer: &mut S,
    kind: Kind,
    height: Height,
    round: Round,
    page: Slip,
    votes: &[Vote],
) -> Result<Vec<u8>, Fault> {
    let certified = match kind {
        Kind::Lock => Certified::Lock,
        Kind::Select => Certified::Select,
        _ => Certified::Decide,
    };
    let mut forger = Forger {
        heap,
        sealer,
        height,
        round,
    };
    forger.certificate(certified, page, votes)
}

// A member that makes messages of one height and round.
#[derive(Drop)]
pub struct Forger<'a, S> {
    pub heap: Global,
    pub sealer: &'a mut S,
    pub height: Height,
    pub round: Round,
}

impl<S: Sealer> Forger<'_, S> {
    // A seal on a statement with that word.
    pub fn seal(&mut self, word: Word, page: Option<Slip>) -> Result<Seal, Refusal> {
        sealed(self.sealer, word, self.height, self.round, page)
    }

    // The same with the name of the member that sealed.
    pub fn vote(&mut self, word: Word, page: Option<Slip>) -> Result<Vote, Refusal> {
        vote(self.sealer, word, self.height, self.round, page)
    }

    // What is written to an outbox, under the member's own head.
    fn written<F>(&self, write: F) -> Result<Vec<u8>, Fault>
    where
        F: FnOnce(Head, &mut [u8], &mut Fill) -> Result<(), Refusal>,
        requires { F.IsAlwaysCallable write }
    {
        let head = Head {
            sender: self.sealer.member(),
            height: self.height,
            round: self.round,
        };
        let mut out = [0u8; ROOM];
        let mut fill = Fill { len: 0 };
        write(head, &mut out, &mut fill)?;
        let message = out.get(..fill.len).ok_or(Fault::NoMessage)?;
        Ok(message.to_vec(self.heap)?)
    }

    // A change for a page or none.
    pub fn change(&mut self, page: Option<Slip>) -> Result<Vec<u8>, Fault> {
        let rchg = self.seal(Word::Rchg, page)?;
        let cand = self.seal(Word::Cand, page)?;
        self.written(|head, out, fill| write_change(out, fill, head, &page, &rchg, &cand))
    }

    // A commit to a page.
    pub fn commit(&mut self, page: Slip) -> Result<Vec<u8>, Fault> {
        let seal = self.seal(Word::Cmit, Some(page))?;
        self.written(|head, out, fill| write_commit(out, fill, head, &page, &seal))
    }

    // A release of whatever lock message it is given, which is said to be on that page.
    pub fn release(&mut self, page: Slip, lock: &[u8]) -> Result<Vec<u8>, Fault> {
        let own = self.seal(Word::Rlse, Some(page))?;
        self.written(|head, out, fill| write_release(out, fill, head, lock, &own))
    }

    // A lock, a select or a decide on a page, with the votes given.
    pub fn certificate(
        &mut self,
        certified: Certified,
        page: Slip,
        votes: &[Vote],
    ) -> Result<Vec<u8>, Fault> {
        let own = self.seal(certified.word(), Some(page))?;
        self.written(|head, out, fill| {
            write_certificate(out, fill, certified, head, &page, &own, votes)
        })
    }
}

// A copy of a message with one byte turned; the same message where it is shorter.
pub fn turned(heap: Global, message: &[u8], at: usize) -> Result<Vec<u8>, Fault> {
    let mut copy = message.to_vec(heap)?;
    if let Some(byte) = copy.get_mut(at) {
        *byte ^= 1;
    }
    Ok(copy)
}
