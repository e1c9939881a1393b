// The parts of the central processor's instructions.
#![tactic(auto)]

pub mod instruction;
