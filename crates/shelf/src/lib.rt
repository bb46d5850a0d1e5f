// What a replica holds in fixed memory: its candidates, and the message of its highest lock.
#![tactic(auto)]

pub mod candidates;
pub mod held;
mod marks;
mod scans;
