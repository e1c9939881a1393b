// The conditions of the central processor's branches.
// Kept: a condition is its octal digit, i of 03 and m of 04 to 07, as the manual names it and as the definitions list it (`word_conditions`,
// `comparisons`); a name for each would stand beside its digit and say no more.
#![tactic(auto)]

pub mod conditions;
