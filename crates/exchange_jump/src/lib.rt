// The exchange jump.
#![tactic(auto)]

pub mod jump;
