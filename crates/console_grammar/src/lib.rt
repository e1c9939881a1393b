// The rules by which a line of the console's input follows another, and how far the input was read.
#![tactic(auto)]

pub mod lent;
pub mod progress;
pub mod rules;
