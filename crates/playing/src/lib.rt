// What programs and tests need to play a pool: keys, sealers, settings, slips, hand-made messages, and a desk on which the
// replicas of a pool stand.
#![tactic(auto)]

pub mod desks;
pub mod faults;
pub mod forging;
pub mod keys;
pub mod looks;
pub mod making;
pub mod seats;
