// Seals: who recognises them, who makes them, and the two kinds that are delivered.
#![tactic(auto)]

pub mod keyed;
pub mod keys;
pub mod kinds;
pub mod ring;
pub mod row;
pub mod sealers;
pub mod single;
pub mod siphash;
pub mod stating;
pub mod tagging;
