// Messages: their layout in bytes, read without allocation and in one pass over the table of contents.
#![tactic(auto)]

pub mod locks;
pub mod parsing;
pub mod readers;
pub mod shapes;
pub mod sizes;
