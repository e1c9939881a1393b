// Rounds, by document 01, "Rounds, stints, devices". The memories, the central processor's registers and the machine's numbers are lent
// through all turns of a run: nothing is copied per turn.
#![tactic(auto)]

pub mod round;
