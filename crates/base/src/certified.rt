// The messages that carry a quorum's seals.
ghost use Rattle.std.specs.Prelude.{◌≡◌};
ghost use Rattle.base.specs.Certified.{kind_of, sort_of, word_of};
ghost use Rattle.base.specs.Sorts.{sort_number};

use crate::stages::{Kind, Sort};
use crate::statements::Word;

// Which certificate it is: a lock over candidates, a select over round changes, or a decide over commits.
#[derive(Clone, Copy, PartialEq, Eq, Debug)]
pub enum Certified {
    Lock,
    Select,
    Decide,
}

impl Certified {
    // The kind of message that is sent.
    // Kept: three tables with values of three types.
    pub fn kind(self) -> Kind
        ensures { result ≡ kind_of self }
    {
        match self {
            Certified::Lock => Kind::Lock,
            Certified::Select => Kind::Select,
            Certified::Decide => Kind::Decide,
        }
    }

    // The sort of the quorum's seals in it.
    pub fn sort(self) -> Sort
        ensures { sort_number result ≡ sort_of self }
    {
        match self {
            Certified::Lock => Sort::Candidate,
            Certified::Select => Sort::RoundChange,
            Certified::Decide => Sort::Commit,
        }
    }

    // What its sender states.
    pub fn word(self) -> Word
        ensures { result ≡ word_of self }
    {
        match self {
            Certified::Lock => Word::Lock,
            Certified::Select => Word::Slct,
            Certified::Decide => Word::Dcid,
        }
    }
}
