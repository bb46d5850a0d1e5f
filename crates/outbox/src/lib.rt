// The outbox: a lent buffer, the fill that says how much of it is taken, and the writers that append to it.
#![tactic(auto)]

pub mod drafts;
pub mod layouts;
pub mod writers;
