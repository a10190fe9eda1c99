// The Prim Network of a lent matrix.
#![tactic(auto)]

pub mod answer;
pub mod network;
