// The small table of document 01: examples that the checker computes.
#![tactic(auto)]
