// Who is at fault in a refused schedule.
#![tactic(auto)]

pub mod fault;
pub mod finding;
pub mod lists;
pub mod owners;
