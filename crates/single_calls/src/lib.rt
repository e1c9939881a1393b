// SINGLE: the entry points on one program, its exchange package and its field.
#![tactic(auto)]

pub mod program;
pub mod record_calls;
pub mod turns;
