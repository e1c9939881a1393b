// Records as flat numbers, in the order in which hosts in C and Rust lend them.
#![tactic(auto)]

pub mod read;
