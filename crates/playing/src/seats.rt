// A member's place at the desk: its replica, the turn that it has, and the records that are lent to the turn.
use crate::faults::Fault;
use crate::looks::Look;
use ballots::commits::CommitRecord;
use base::refusals::Refusal;
use holding::settings::Settings;
use outbox::drafts::Fill;
use protocol::answers::Answer;
use replica::replicas::Replica;
use rules::receipts::Receipts;
use seal::sealers::Sealer;
use turns::phases::{Counting, Gathering};

// A fault where the call was not made, and otherwise what the replica answered.
// Kept: a refusal is an answer and is counted, a fault is not.
pub type Answered = Result<Result<Answer, Refusal>, Fault>;

// The turn of a member, in its phase.
pub enum Turn {
    Gathers(Gathering),
    Counts(Counting),
}

impl Drop for Turn {
    fn drop(self) {
        match self {
            Turn::Gathers(turn) => turn.abandon(),
            Turn::Counts(turn) => turn.abandon(),
        }
    }
}

// Kept: two methods, since each phase is a type of its own, and a trait over the two would be longer.
impl Turn {
    // The turn where it gathers; else it is let go.
    fn gathering(self) -> Option<Gathering> {
        match self {
            Turn::Gathers(turn) => Some(turn),
            Turn::Counts(turn) => {
                turn.abandon();
                None
            }
        }
    }

    // The turn where it counts; else it is let go.
    fn counting(self) -> Option<Counting> {
        match self {
            Turn::Gathers(turn) => {
                turn.abandon();
                None
            }
            Turn::Counts(turn) => Some(turn),
        }
    }
}

// The first n records, or all where there are fewer.
fn first(records: &mut [CommitRecord], n: usize) -> &mut [CommitRecord] {
    let n = n.min(records.len());
    &mut records[..n]
}

#[derive(Drop)]
pub struct Seat<S> {
    pub replica: Replica<S, Receipts>,
    pub turn: Option<Turn>,
    pub records: [CommitRecord; 10],
    // how many of the records are lent
    pub lent: usize,
}

impl<S: Sealer + Drop> Seat<S> {
    // A replica with a rulebook of receipts, and no turn.
    pub fn new(settings: Settings, sealer: S) -> Seat<S> {
        Seat {
            replica: Replica::open(settings, sealer, Receipts::new()),
            turn: None,
            records: [CommitRecord::blank(); 10],
            lent: 10,
        }
    }

    pub fn look(&self) -> Look {
        Look {
            height: self.replica.height(),
            round: self.replica.round(),
            stage: self.replica.stage(),
            left: self.replica.seals_left(),
        }
    }

    // Opens a turn; one that it had is let go.
    pub fn open_turn(&mut self) -> Result<Answer, Refusal> {
        let turn = self.replica.open_turn()?;
        self.turn = Some(Turn::Gathers(turn));
        Ok(Answer::Taken)
    }

    // Puts the turn forward, unless it has none to put forward.
    pub fn put_forward(&mut self, out: &mut [u8], fill: &mut Fill) -> Answered {
        let turn = self
            .turn
            .take()
            .and_then(Turn::gathering)
            .ok_or(Fault::NoTurn)?;
        let records = first(&mut self.records, self.lent);
        match self.replica.put_forward(turn, records, out, fill) {
            Ok(turn) => {
                self.turn = turn.map(Turn::Counts);
                Ok(Ok(Answer::Taken))
            }
            Err((why, turn)) => {
                self.turn = Some(Turn::Gathers(turn));
                Ok(Err(why))
            }
        }
    }

    // Gives a commit to the turn, unless it has none that counts.
    pub fn take_commit(&mut self, message: &[u8]) -> Answered {
        // Kept: one phase of two is taken apart here, which is no Option.
        let Some(Turn::Counts(turn)) = &self.turn else {
            return Err(Fault::NoTurn);
        };
        let records = first(&mut self.records, self.lent);
        let heard = self.replica.take_commit(turn, records, message);
        Ok(heard.map(|()| Answer::Taken))
    }

    // Closes the turn, unless it has none that counts.
    pub fn close(&mut self, out: &mut [u8], fill: &mut Fill) -> Answered {
        let turn = self
            .turn
            .take()
            .and_then(Turn::counting)
            .ok_or(Fault::NoTurn)?;
        let records = first(&mut self.records, self.lent);
        match self.replica.close(turn, records, out, fill) {
            Ok(()) => Ok(Ok(Answer::Taken)),
            Err((why, turn)) => {
                self.turn = Some(Turn::Counts(turn));
                Ok(Err(why))
            }
        }
    }
}
