// A replica of the receipt book, as a library for programs: a pure state machine. The caller owns transport, clock and memory.
#![tactic(auto)]

pub mod replicas;
