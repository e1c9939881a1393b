// WHOLE: the entry points on the whole machine, with peripheral processors, channels and clock. The device calls are in `whole_device`.
#![tactic(auto)]

pub mod call;
