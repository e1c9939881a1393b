// The verdict on a whole machine, both memories and a record: refusals 1 to 5 and 8.
#![tactic(auto)]

pub mod verdict;
