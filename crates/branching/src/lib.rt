// Trees as lists of immediate ancestors; growing trees and branchings; placements.
#![tactic(auto)]

pub(crate) mod growing;
pub mod placement;
pub mod questions;
pub mod tree;
