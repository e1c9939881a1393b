// Length and fitness of the central processor's codes, as one table.
#![tactic(auto)]

pub mod table;
