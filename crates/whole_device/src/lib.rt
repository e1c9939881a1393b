// The device calls.
#![tactic(auto)]

pub mod calls;
