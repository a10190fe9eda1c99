// The questions put to one line of a file: a row's, and the `C` line of a node.
#![tactic(auto)]

pub mod branch;
pub mod rows;
