// Normalize, code 24.
#![tactic(auto)]

pub mod normalize;
