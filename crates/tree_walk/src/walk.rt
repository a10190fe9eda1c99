// A walk over a branching: its nodes in an order in which each stands behind its immediate ancestor; and the descendants of each node.

use filled::Filled;
use tree_form::tree::TREE_SIZE;

// The descendants of a node, by rising number; 0 for none.
// Kept: no plainer, the passes of a fit read place 0 of their lists for none, where Option would want a test for each descendant
#[derive(Clone, Copy, Default)]
pub struct Below {
    pub first: usize,
    pub second: usize,
}

// A walk: the nodes in order, from node 1 down. In the entries that it does not fill stand zeros.
pub type Walk = Filled<usize, TREE_SIZE>;

// A walk, and the descendants of each node by node number.
// Kept: interface, as `Tree`: nodes are numbers, and the project has no heap.
#[derive(Clone, Copy)]
pub struct Descent {
    pub walk: Walk,
    pub below: [Below; TREE_SIZE],
}
