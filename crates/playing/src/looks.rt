// What is seen of a call and of a replica, and the running counts.
use crate::faults::Fault;
use base::counters::{Height, Round};
use base::refusals::Refusal;
use base::slips::Slip;
use base::stages::Stage;
use protocol::answers::Answer;

// What a call answered, and the index of the message that it wrote, if any.
#[derive(Clone, Copy)]
pub struct Told {
    pub answer: Result<Answer, Refusal>,
    pub wrote: Option<usize>,
}

impl Told {
    // The number of the refusal; none where the call was taken.
    pub fn number(&self) -> Option<u8> {
        self.answer.err().map(Refusal::number)
    }

    // The page that was entered.
    pub fn page(&self) -> Option<Slip> {
        match self.answer {
            Ok(Answer::Entered { slip, .. }) => Some(slip),
            _ => None,
        }
    }

    // The index of the message that was written; a fault where there is none.
    pub fn message(&self) -> Result<usize, Fault> {
        self.wrote.ok_or(Fault::NoMessage)
    }
}

// What is seen of a replica from outside.
#[derive(Clone, Copy, PartialEq)]
pub struct Look {
    pub height: Height,
    pub round: Round,
    pub stage: Stage,
    pub left: u32,
}

// How many calls were made, messages written, pages entered, and calls refused, by the number of the refusal.
#[derive(Clone, Copy, Default)]
pub struct Counts {
    pub calls: u32,
    pub messages: u32,
    pub pages: u32,
    pub refusals: [u32; 20],
}

impl Counts {
    // Counts a call.
    pub fn note(&mut self, told: &Told) {
        self.calls = self.calls.saturating_add(1);
        if told.wrote.is_some() {
            self.messages = self.messages.saturating_add(1);
        }
        if told.page().is_some() {
            self.pages = self.pages.saturating_add(1);
        }
        if let Some(number) = told.number()
            && let Some(count) = self.refusals.get_mut(number as usize)
        {
            *count = count.saturating_add(1);
        }
    }

    // How many calls were refused.
    pub fn refused(&self) -> u32 {
        self.refusals
            .iter()
            .fold(0, |sum: u32, count| sum.saturating_add(*count))
    }

    // Adds the counts of another desk.
    pub fn add(&mut self, other: &Counts) {
        self.calls = self.calls.saturating_add(other.calls);
        self.messages = self.messages.saturating_add(other.messages);
        self.pages = self.pages.saturating_add(other.pages);
        for (mine, theirs) in self.refusals.iter_mut().zip(other.refusals.iter()) {
            *mine = mine.saturating_add(*theirs);
        }
    }
}
