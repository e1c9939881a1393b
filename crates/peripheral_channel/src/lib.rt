// A channel, and what the peripheral codes do to it.
#![tactic(auto)]

pub mod codes;
pub mod record;
