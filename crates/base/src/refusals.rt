// The closed list of refusals. A refused call changes nothing.
ghost use Rattle.std.specs.Prelude.{◌≡◌, slice_index};
ghost use Rattle.base.specs.Refusals.{told};

use std::error::Error;
use std::fmt;

#[derive(Clone, Copy, PartialEq, Eq, Debug)]
pub enum Refusal {
    // 1: not of the layout, or height or round out of range
    Misshapen,
    // 2: a sender or sealer not below n; a lock, select or decide not from its leader
    Stranger,
    // 3: below the replica's height
    PastHeight,
    // 4: above the replica's height
    LaterHeight,
    // 5: of a round that is not taken
    WrongRound,
    // 6: the stage or the turn does not take it
    OutOfStage,
    // 7: a seal not recognised: its place in the table of contents, and whether in the lock inside a release
    BadSeal { place: u8, inside: bool },
    // 8: the slip's parent mark is not the last mark, or its own mark is all zeros
    OffChain,
    // 9: the rulebook does not admit the slip
    NotAdmitted,
    // 10: another page for the same round
    Contradiction,
    // 11: a 17th candidate
    CandidatesFull,
    // 12: no seal left
    WornSealer,
    // 13: the message does not fit after the fill
    OutboxShort,
    // 14: not the leader, or a turn opened outside locking or twice
    NotYourTurn,
    // 15: put forward or closed too early
    NotYet,
    // 16: the replica left the turn's height or round
    TurnPast,
    // 17: settings, ticks or a sealer outside limits
    Unlawful,
    // 18: a step past the last round or height
    BooksEnd,
    // 19: fewer commit records than members
    FewRecords,
}

impl Refusal {
    // The number by which people know it.
    // Kept: the table of the rule.
    pub fn number(self) -> u8
        ensures { result ≡ slice_index (told self) 0 }
    {
        match self {
            Refusal::Misshapen => 1,
            Refusal::Stranger => 2,
            Refusal::PastHeight => 3,
            Refusal::LaterHeight => 4,
            Refusal::WrongRound => 5,
            Refusal::OutOfStage => 6,
            Refusal::BadSeal { .. } => 7,
            Refusal::OffChain => 8,
            Refusal::NotAdmitted => 9,
            Refusal::Contradiction => 10,
            Refusal::CandidatesFull => 11,
            Refusal::WornSealer => 12,
            Refusal::OutboxShort => 13,
            Refusal::NotYourTurn => 14,
            Refusal::NotYet => 15,
            Refusal::TurnPast => 16,
            Refusal::Unlawful => 17,
            Refusal::BooksEnd => 18,
            Refusal::FewRecords => 19,
        }
    }
}

// Why, in a few words.
fn phrase(refusal: &Refusal) -> &'static str {
    match refusal {
        Refusal::Misshapen => "misshapen, or height or round out of range",
        Refusal::Stranger => "not of a member, or not of the leader",
        Refusal::PastHeight => "below the height",
        Refusal::LaterHeight => "above the height",
        Refusal::WrongRound => "of a round that is not taken",
        Refusal::OutOfStage => "not taken in this stage",
        Refusal::BadSeal { .. } => "a seal that is not recognised",
        Refusal::OffChain => "a slip off the chain",
        Refusal::NotAdmitted => "a slip that the rulebook does not admit",
        Refusal::Contradiction => "another page for the same round",
        Refusal::CandidatesFull => "no place for a further candidate",
        Refusal::WornSealer => "no seal left",
        Refusal::OutboxShort => "no room in the outbox",
        Refusal::NotYourTurn => "not the leader's turn",
        Refusal::NotYet => "too early",
        Refusal::TurnPast => "the turn is past",
        Refusal::Unlawful => "settings, ticks or a sealer outside limits",
        Refusal::BooksEnd => "no round or height is left",
        Refusal::FewRecords => "fewer commit records than members",
    }
}

impl fmt::Display for Refusal {
    fn fmt<W: fmt::Write>(&self, f: &mut fmt::Formatter<W>) -> fmt::Result {
        write!(f, "refusal {}: {}", self.number(), phrase(self))
    }
}

impl Error for Refusal {}
