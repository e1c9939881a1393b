// The entry points for hosts in C and Rust: memories, records and results are slices that the host lends, and a call answers with the
// number of its refusal, or 0. Records are flat numbers, as `host_record` lays them out.
#![tactic(auto)]

pub mod central_calls;
pub mod device_calls;
pub mod machine_calls;
pub mod schedule_call;
