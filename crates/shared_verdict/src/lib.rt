// The verdict on a schedule.
#![tactic(auto)]

pub mod lists;
pub mod owners;
pub mod verdict;
