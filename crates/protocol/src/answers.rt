// What an accepted call answers.
// Kept: a rule of the project, an answer is an enum with a definition for each case.
use base::counters::Height;
use base::slips::Slip;

#[derive(Clone, Copy)]
pub enum Answer {
    // nothing to tell
    Taken,
    // the page that was entered, and at which height
    Entered { height: Height, slip: Slip },
}
