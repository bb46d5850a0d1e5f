// The messages of one height: what the others send to the replica that is measured.
use base::certified::Certified;
use base::counters::{Height, Round};
use base::pools::Pool;
use base::seals::Vote;
use base::slips::Slip;
use base::statements::Word;
use playing::faults::Fault;
use playing::forging::Forger;
use seal::sealers::Sealer;
use std::alloc::Global;

// Where and about what the messages are.
#[derive(Clone, Copy)]
pub struct Page {
    pub pool: Pool,
    pub height: Height,
    pub slip: Slip,
}

// The changes of all members but the last, the leader's lock and its decide.
#[derive(Drop)]
pub struct Messages {
    pub changes: Vec<Vec<u8>>,
    pub lock: Vec<u8>,
    pub decide: Vec<u8>,
}

impl Page {
    // That member makes messages of the first round.
    fn forger<'a, S>(&self, heap: Global, sealer: &'a mut S) -> Forger<'a, S> {
        Forger {
            heap,
            sealer,
            height: self.height,
            round: Round(0),
        }
    }
}

fn changes<S: Sealer>(heap: Global, sealers: &mut [S], page: &Page) -> Result<Vec<Vec<u8>>, Fault> {
    let others = page.pool.size() - 1;
    sealers
        .iter_mut()
        .take(others)
        .map(|sealer| page.forger(heap, sealer).change(Some(page.slip)))
        .try_collect(heap)
}

// The votes of a quorum on a word about the page.
fn votes<S: Sealer>(
    heap: Global,
    sealers: &mut [S],
    word: Word,
    page: &Page,
) -> Result<Vec<Vote>, Fault> {
    sealers
        .iter_mut()
        .take(page.pool.quorum())
        .map(|sealer| Ok(page.forger(heap, sealer).vote(word, Some(page.slip))?))
        .try_collect(heap)
}

fn certificate<S: Sealer>(
    heap: Global,
    sealers: &mut [S],
    certified: Certified,
    page: &Page,
    votes: &[Vote],
) -> Result<Vec<u8>, Fault> {
    let leader = page.pool.leader(page.height, Round(0));
    let sealer = sealers.get_mut(leader.0 as usize).ok_or(Fault::NoMember)?;
    page.forger(heap, sealer)
        .certificate(certified, page.slip, votes)
}

// Makes them, with the sealers of all members.
pub fn make<S: Sealer>(heap: Global, sealers: &mut [S], page: &Page) -> Result<Messages, Fault> {
    let changes = changes(heap, sealers, page)?;
    let named = votes(heap, sealers, Word::Cand, page)?;
    let lock = certificate(heap, sealers, Certified::Lock, page, named.as_slice())?;
    let commits = votes(heap, sealers, Word::Cmit, page)?;
    let decide = certificate(heap, sealers, Certified::Decide, page, commits.as_slice())?;
    Ok(Messages {
        changes,
        lock,
        decide,
    })
}
