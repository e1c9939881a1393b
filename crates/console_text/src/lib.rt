// One line of an answer, written into a lent buffer.
#![tactic(auto)]

pub mod pieces;
