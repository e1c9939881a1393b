// A turn of a peripheral processor, by document 01, "Peripheral turn": its instruction is decoded, the effect is worked out without writing,
// and one function of `peripheral_machine` applies it. The effects are those of `peripheral_codes` and `peripheral_io`.
// Kept: the second digit k of a code and d are numbers, as in `peripheral_codes`: the definitions take the entry of a row by k
// (`sixth_row_of` of specs/Turn.antt), and a name for each would stand beside its digit and say no more.
#![tactic(auto)]

mod listing;
mod rows;
pub mod turn;
