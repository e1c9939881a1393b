// The console: the lines of an input in, the lines of its answer out.
#![tactic(auto)]

pub mod finish;
pub mod run;
pub mod whole;
