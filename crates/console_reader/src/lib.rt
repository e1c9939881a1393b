// The console's input, read line by line into lent memory.
#![tactic(auto)]

mod line_bytes;
pub mod reader;
