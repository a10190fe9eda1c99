// The floor of a matrix, which no total of a branching passes below, and the consistency index of a branching.
#![tactic(auto)]

pub mod calls;
pub mod floor;
pub mod index;
