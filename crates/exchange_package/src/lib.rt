// The exchange package of a central record.
#![tactic(auto)]

pub mod package;
