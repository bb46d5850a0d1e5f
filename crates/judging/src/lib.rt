// What can be judged of a message without the replica's state: who speaks, under which seals, about which slip; and the
// stage table.
#![tactic(auto)]

pub mod contents;
pub mod sealing;
pub mod speakers;
pub mod staging;
