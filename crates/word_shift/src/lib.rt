// Shifts, masks, counts, unpack and pack of the values of `word_arithmetic`: codes 20 to 27, 43, 47 and the peripheral SHN.
// A contract names a definition of specs/, which follows document 01; bounds of the results are laws in specs/Laws.
#![tactic(auto)]

pub mod floating;
pub mod nominal;
pub mod shifts;
