// What members seal: a word, a height, a round and, except after RCHG, a page.
ghost use Rattle.std.specs.Prelude.{◌≡◌, ◌++◌, length};
ghost use Rattle.base.specs.Numbers.{be4};
ghost use Rattle.base.specs.Slips.{page_bytes, BytesDecideSlip};
ghost use Rattle.base.specs.Statements.{word_bytes, statement_bytes, sealed, BytesDecideStatement};
ghost use Rattle.base.specs.Writing.{wrote};

use crate::bounded::Bounded;
use crate::counters::{Height, Round};
use crate::slips::Slip;

// What a statement is about. Its four letters keep one kind of seal from counting as another.
#[derive(Clone, Copy, PartialEq, Eq, Debug)]
pub enum Word {
    // asks for a round
    Rchg,
    // names the candidate, or none, with which the member enters a round
    Cand,
    // commits to a page
    Cmit,
    // the leader's lock on a page
    Lock,
    // the leader's select
    Slct,
    // the leader's decide
    Dcid,
    // hands on a lock
    Rlse,
}

impl Word {
    pub fn bytes(self) -> [u8; 4]
        ensures bytes { result ≡ word_bytes self }
        ensures len { length result ≡ 4 }
    {
        match self {
            Word::Rchg => *b"RCHG",
            Word::Cand => *b"CAND",
            Word::Cmit => *b"CMIT",
            Word::Lock => *b"LOCK",
            Word::Slct => *b"SLCT",
            Word::Dcid => *b"DCID",
            Word::Rlse => *b"RLSE",
        }
    }
}

// The page of a statement is a slip or none; after RCHG it is not written.
#[derive(Clone, Copy, PartialEq, Debug)]
pub struct Statement {
    pub word: Word,
    pub height: Height,
    pub round: Round,
    pub page: Option<Slip>,
}

// A statement as bytes: 12 of them for RCHG, 84 for the others.
#[derive(Clone, Copy)]
pub struct StatementBytes {
    bytes: Bounded<u8, 84>,
}

impl Statement {
    // The bytes, which belong to no other statement, as a slip's belong to no other slip.
    pub fn to_bytes(&self) -> StatementBytes
        ensures bytes { sealed result ≡ statement_bytes self.now }
        ensures law { BytesDecideStatement }
        ensures slips { BytesDecideSlip }
    {
        let mut bytes = Bounded::empty(0);
        let _ = bytes.extend(&self.word.bytes());
        let _ = bytes.extend(&self.height.0.to_be_bytes());
        let _ = bytes.extend(&self.round.0.to_be_bytes());
        if self.word != Word::Rchg {
            let _ = bytes.extend(&page_bytes(&self.page));
        }
        StatementBytes { bytes }
    }
}

impl StatementBytes {
    pub fn as_slice(&self) -> &[u8]
        ensures { result.now ≡ sealed self.now }
    {
        self.bytes.as_slice()
    }
}

// The 72 bytes that stand for a page: a slip's, or zeros where there is none.
fn page_bytes(page: &Option<Slip>) -> [u8; 72]
    ensures is { result ≡ page_bytes page.now }
    ensures len { length result ≡ 72 }
{
    let mut bytes = [0; 72];
    if let Some(slip) = page {
        let _ = slip.write(&mut bytes, 0);
    }
    bytes
}
