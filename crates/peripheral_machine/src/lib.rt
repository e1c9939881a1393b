// What a turn of a peripheral processor can change, and the one function that changes it: the processor's own memory, central memory,
// the central processor's registers, and all other registers, channels and the clock as one array of numbers.
#![tactic(auto)]

pub mod apply;
pub mod effect;
pub mod numbers;
