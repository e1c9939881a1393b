// The central processor's registers.
#![tactic(auto)]

pub mod registers;
