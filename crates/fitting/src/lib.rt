// Fitting the inner states of a fixed branching, character after character: lengths, marks, ranges and totals, and the calls on a lent branching.
#![tactic(auto)]

pub mod calls;
pub mod ranges;
pub mod totals;
pub mod whole;
