// The first line that makes an input unreadable, and the rule that it breaks.
#![tactic(auto)]

pub mod rule;
pub mod tracker;
