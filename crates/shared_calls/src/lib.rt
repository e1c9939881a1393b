// SHARED: several programs in one memory, run by a schedule of stints.
#![tactic(auto)]

pub mod call;
pub mod stints;
