// A stint: the turns of one program, on its field alone, between an exchange jump in and one out.
#![tactic(auto)]

pub mod field;
pub mod stint;
