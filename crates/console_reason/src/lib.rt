// Why an input is refused, in a few lines.
#![tactic(auto)]

pub mod explain;
mod fault;
mod line;
pub mod whole;
