// A floating word taken apart and put together: the special words, a finite word's sign, size and exponent, and long sizes in halves.
#![tactic(auto)]

pub mod halves;
pub mod number;
pub mod special;
