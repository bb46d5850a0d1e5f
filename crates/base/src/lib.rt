// The words that every layer shares: counters, the pool's arithmetic, slips, statements, seals and refusals.
#![tactic(auto)]

pub mod bounded;
pub mod certified;
pub mod counters;
pub mod pools;
pub mod refusals;
pub mod seals;
pub mod slips;
pub mod stages;
pub mod statements;
pub mod writing;
