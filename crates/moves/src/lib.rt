// The calls that move a replica.
#![tactic(auto)]

mod acts;
pub mod calls;
pub mod comparing;
mod judges;
pub mod messages;
mod taking;
