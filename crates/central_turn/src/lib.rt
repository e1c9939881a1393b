// The central processor of document 01, "Central turn". A turn takes the registers, the field and the table of codes, all lent, and P; an
// instruction is decoded, its effect is worked out without writing, and one function of `central_apply` applies it.
#![tactic(auto)]

pub mod step;
pub mod turn;
