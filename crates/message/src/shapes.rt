// What a message says, by its kind: plain structs over parts of the message.
ghost use Rattle.std.specs.Prelude.{◌≡◌};

use crate::readers::{Part, Reader};
use base::counters::{Height, Member, Round};
use base::slips::Slip;
use base::statements::{Statement, Word};

// Who sent a message, for which height and round.
#[derive(Clone, Copy)]
pub struct Head {
    pub sender: Member,
    pub height: Height,
    pub round: Round,
}

impl Head {
    // What is stated under it of a page with that word.
    pub fn says(self, word: Word, page: Option<Slip>) -> Statement
        ensures { result ≡ record { word = word; height = self.height; round = self.round; page = page } }
    {
        Statement {
            word,
            height: self.height,
            round: self.round,
            page,
        }
    }
}

// A slip, the leader's own seal, and a reader that stands before the quorum's seals.
#[derive(Clone, Copy)]
pub struct Certificate<'a> {
    pub slip: Slip,
    pub own: Part<'a>,
    pub votes: Reader<'a>,
}

// What a lock message says.
#[derive(Clone, Copy)]
pub struct LockMessage<'a> {
    pub head: Head,
    pub certificate: Certificate<'a>,
}

// What a message holds, by its kind.
#[derive(Clone, Copy)]
pub enum Holds<'a> {
    // the page, the sender's seals on the round change and on the candidate
    Change {
        page: Option<Slip>,
        rchg: Part<'a>,
        cand: Part<'a>,
    },
    Lock(Certificate<'a>),
    Select(Certificate<'a>),
    // the slip and the sender's seal on the commit
    Commit {
        slip: Slip,
        seal: Part<'a>,
    },
    Decide(Certificate<'a>),
    // a whole lock message, what it says, and the sender's own seal
    Release {
        part: Part<'a>,
        inner: LockMessage<'a>,
        own: Part<'a>,
    },
}

// A message, read.
#[derive(Clone, Copy)]
pub struct Message<'a> {
    pub head: Head,
    pub holds: Holds<'a>,
}
