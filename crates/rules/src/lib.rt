// Rulebooks: which pages a member may agree to, and which it prefers.
#![tactic(auto)]

pub mod ranking;
pub mod receipts;
pub mod roster;
pub mod rulebooks;
