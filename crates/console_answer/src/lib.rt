// The lines of the console's answer, written into a lent buffer.
#![tactic(auto)]

pub mod refused;
pub mod stints;
pub mod words;
