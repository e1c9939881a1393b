// What one line of the console's input says.
#![tactic(auto)]

pub mod form;
mod value;
