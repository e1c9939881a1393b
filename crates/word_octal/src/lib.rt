// Numbers as text in octal digits.
#![tactic(auto)]

mod digit;
pub mod read;
pub mod text;
pub mod write;
