// Laws of tests, choices and the arms of a match, which every layer uses; no code.
#![tactic(auto)]
