// What a replica holds, with its settings, its sealer and its rulebook. Fields are open here: what stands above keeps them to
// itself.
#![tactic(auto)]

pub mod asking;
pub mod changing;
pub mod cores;
pub mod settings;
pub mod states;
pub mod times;
pub mod trials;
