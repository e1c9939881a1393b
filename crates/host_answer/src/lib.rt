// What a call hands back to a host in C or Rust: the record as flat numbers, the refusal's number, and the results.
#![tactic(auto)]

pub mod keep;
pub mod results;
pub mod write;
