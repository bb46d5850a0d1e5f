// Sealing a message and appending it to the outbox: all of it, or nothing but the seals that were spent.
#![tactic(auto)]

pub mod sends;
