// What the floor of a matrix and the consistency index of a branching are: types, definitions and laws; no function.
#![tactic(auto)]

pub mod index;
