// Refusals and stops, each an enum by value, with the number that document 01 gives to each case.
// Kept: `number` by name and no `From`, since the definitions (`refusal_number`, `central_stop_number`, `peripheral_stop_number`) and the
// documents call it so.
#![tactic(auto)]

pub mod refusal;
pub mod stop;
