// Numbers of a fixed width in octal digits and flags as text, for programs whose output is compared with a stored one.
#![tactic(auto)]

pub mod text;
