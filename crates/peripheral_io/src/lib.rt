// The codes of a peripheral processor that reach central memory and the channels: the effect of each.
// Kept: the second digit k of a code and d are numbers, as in `peripheral_codes`: the definitions take the entry of a row by k (`condition`
// and `change_of` of specs/Channels.antt), and a name for each would stand beside its digit and say no more.
#![tactic(auto)]

pub mod central_side;
pub mod channels;
