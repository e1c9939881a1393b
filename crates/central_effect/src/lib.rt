// The effect of every code of the central processor, worked out from the registers without writing; no memory.
// Kept: the second digit m of a code is a number, as the manual names the codes of a row by it and the definitions take the entry of a row
// by it (`shift_of` of specs/Effects.antt); a name for each would stand beside its digit and say no more.
#![tactic(auto)]

pub mod arithmetic;
pub mod branches;
pub mod effect;
pub mod floating;
pub mod increments;
pub mod listing;
pub mod rows;
pub mod shifts;
