// The library for C and Rust: `host_calls`, which a crate of this repository calls, exported as C functions. Each promises what the function
// that it calls promises, and does nothing else.
// Kept: ten functions that pass on, since a crate is a library or a static library that C links, and `check_probe` calls `host_calls` (the C
// interface).
#![tactic(auto)]

pub mod central_calls;
pub mod device_calls;
pub mod machine_calls;
pub mod schedule_call;
