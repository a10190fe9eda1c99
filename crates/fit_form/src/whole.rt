// The fit of a tree.
ghost use Rattle.std.specs.Prelude.{length};

use tree_form::tree::TREE_SIZE;

// A branch as far as characters are fitted: its length under the chosen states, and its mark.
#[derive(Clone, Copy, Default)]
pub struct BranchFit {
    pub length: u64,
    // Kept: no plainer, request M-107, which is to come, gives a mark a meaning of its own: that no choice of least length has a length of 0 there.
    pub mark: bool,
}

// The fit of a tree: by node number the fitted length and the mark of each node's branch; and the total.
#[derive(Clone, Copy)]
pub struct Fit {
    pub branches: [BranchFit; TREE_SIZE],
    pub total: u64,
}
