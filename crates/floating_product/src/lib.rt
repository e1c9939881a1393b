// The floating products, codes 40 and 42.
#![tactic(auto)]

pub mod halves;
pub mod products;
