// The field test, through which every address of a program goes.
#![tactic(auto)]

pub mod address;
