// Difference, median and interval difference: of codes, of rows, of the nodes of a matrix, and as calls on a lent one.
#![tactic(auto)]

pub mod calls;
pub mod codes;
pub mod nodes;
pub mod rows;
