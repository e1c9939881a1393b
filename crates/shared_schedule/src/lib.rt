// A schedule and what it promises to each of its jobs are definitions and theorems in specs/; there is no code here.
#![tactic(auto)]
