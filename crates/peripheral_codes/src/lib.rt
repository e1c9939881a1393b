// Codes 00 to 23 and 30 to 57 of a peripheral processor on its own registers and memory, by document 01, "Peripheral turn": what each asks
// for, worked out without writing.
// Kept: the second digit k of a code is a number, as the manual names the codes of a row by it and the definitions take the entry of a row
// by it (`short_value` of specs/Constants.antt); a name for each would stand beside its digit and say no more. `k < 8` and `d < 64` stand in
// the contracts: a type for k would be made in each of the 64 arms of the listing (`peripheral_turn`), and both would be taken apart in the
// row's function.
#![tactic(auto)]

pub mod addresses;
pub mod constants;
pub mod jumps;
pub mod memory;
