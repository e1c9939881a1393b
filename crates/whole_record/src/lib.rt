// The whole machine's record as the host lends it, by value, and as the numbers that turns work on.
#![tactic(auto)]

pub mod numbers;
pub mod record;
