// What a replica is doing, and what a message is.
ghost use Rattle.std.specs.Prelude.{◌≡◌};
ghost use Rattle.std.specs.Option.{ok_or};
ghost use Rattle.base.specs.Kinds.{kind_number, kind_of};
ghost use Rattle.base.specs.Sorts.{sort_number};
ghost use Rattle.base.specs.declared.refusals.Refusal.TheVariants.{Misshapen};

use crate::refusals::Refusal;

// The stages of a round, in their order.
#[derive(Clone, Copy, PartialEq, Eq, Debug)]
pub enum Stage {
    // nothing stated at this height yet
    Resting,
    // stated a round, waits for a quorum in it
    Changing,
    // waits for the leader's lock or select
    Locking,
    // waits for the leader's decide
    Committing,
    // hands locks on, then goes to the next round
    Releasing,
}

// The six kinds of messages.
#[derive(Clone, Copy, PartialEq, Eq, Debug)]
pub enum Kind {
    Change,
    Lock,
    Select,
    Commit,
    Decide,
    Release,
}

impl Kind {
    // The first byte of a message of this kind.
    // Kept: a table of the format.
    pub fn number(self) -> u8
        ensures { result ≡ kind_number self }
    {
        match self {
            Kind::Change => 1,
            Kind::Lock => 2,
            Kind::Select => 3,
            Kind::Commit => 4,
            Kind::Decide => 5,
            Kind::Release => 6,
        }
    }
}

// The kind whose messages begin with that byte.
impl TryFrom<u8> for Kind {
    type Error = Refusal;

    ghost try_from_gives = { λ n r. r ≡ ok_or (kind_of n) Misshapen };

    fn try_from(number: u8) -> Result<Self, Refusal> {
        match number {
            1 => Ok(Kind::Change),
            2 => Ok(Kind::Lock),
            3 => Ok(Kind::Select),
            4 => Ok(Kind::Commit),
            5 => Ok(Kind::Decide),
            6 => Ok(Kind::Release),
            _ => Err(Refusal::Misshapen),
        }
    }
}

// The sorts of bodies that a message has.
#[derive(Clone, Copy, PartialEq, Eq, Debug)]
pub enum Sort {
    // a slip of 72 bytes
    Slip,
    // a seal on a round change
    RoundChange,
    // a seal on a candidate
    Candidate,
    // a seal on a commit
    Commit,
    // the sender's own seal on a lock, select, decide or release
    Own,
    // a whole lock message
    Lock,
}

impl Sort {
    // The byte that stands for it in a table of contents.
    // Kept: a table of the format.
    pub fn number(self) -> u8
        ensures { result ≡ sort_number self }
    {
        match self {
            Sort::Slip => 1,
            Sort::RoundChange => 2,
            Sort::Candidate => 3,
            Sort::Commit => 4,
            Sort::Own => 5,
            Sort::Lock => 6,
        }
    }
}
