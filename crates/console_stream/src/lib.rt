// What the console's programs share: an input that is read to its end in pieces, and the exit status of an answer.
#![tactic(auto)]

pub mod answer;
pub mod pieces;
