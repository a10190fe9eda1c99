// The header of a file: line 1, and the optional line behind it.
#![tactic(auto)]

pub mod answer;
pub mod header;
mod optional;
pub mod weights;
