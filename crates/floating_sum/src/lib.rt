// The floating sums and differences, codes 30 to 33.
#![tactic(auto)]

pub mod halves;
pub mod sums;
