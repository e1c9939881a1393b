// Turns of all peripheral processors, each on its own memory.
#![tactic(auto)]

pub mod processors;
