// Branch records: those of a tree, the tree that lent ones give, lent ones as a list of numbers, and the questions of a call that has them.
#![tactic(auto)]

pub mod branch;
pub mod lent;
pub mod numbers;
pub mod questions;
