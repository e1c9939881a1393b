// What an effect does to the registers and the field, both lent.
#![tactic(auto)]

pub mod apply;
pub mod field;
