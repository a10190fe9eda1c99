// What trees, branchings, branch records and placements are: types, definitions and laws; no function.
#![tactic(auto)]

pub mod branch;
pub mod order;
pub mod placement;
pub mod tree;
