// The leader's turn: opened once a round, put forward, filled with commits, closed.
#![tactic(auto)]

mod certifying;
pub mod closing;
pub mod committing;
mod conditions;
pub mod forwarding;
pub mod opening;
pub mod phases;
mod proposing;
