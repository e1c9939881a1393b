// What every layer says of lists and of parts of memory.
#![tactic(auto)]

pub mod overlap;
