// The members' latest statements and the leader's records of commits, and how they are counted.
#![tactic(auto)]

pub mod commits;
pub mod latest;
pub mod tallies;
