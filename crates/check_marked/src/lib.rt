// The marked results of document 01 are theorems in specs/Marked.antt; there is no code here.
#![tactic(auto)]
