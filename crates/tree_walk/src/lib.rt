// The walk over a branching: its nodes in an order in which a pass goes up or down; and the descendants of each node.
#![tactic(auto)]

pub mod descent;
pub mod walk;
