// The limits of a schedule's lists.
#![tactic(auto)]

pub mod limits;
