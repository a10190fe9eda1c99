// Sets of states: the join of two sets, how far they lie from each other, the member nearest to a state, and the middle of three.
#![tactic(auto)]

pub mod spans;
