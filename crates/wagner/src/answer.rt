// What a build hands back.
use branching::placement::Placed;
use branching::tree::Tree;
use filled::Filled;
use matrix::MOST_TAXA;
use tree_form::placement::Placement;

// A build places at most 63 taxa behind row 1.
// Kept: no plainer, `prim` has this number for its links: they are equal since each taxon behind row 1 has one of each, and each is said where its list is.
pub const MOST_PLACEMENTS: usize = MOST_TAXA - 1;

// A Wagner tree: the tree; the placements, in their order; the length of the tree under the median codes.
#[derive(Clone, Copy)]
pub struct WagnerTree {
    pub tree: Tree,
    pub placements: Filled<Placement, MOST_PLACEMENTS>,
    pub length: u64,
}

impl WagnerTree {
    ghost use Rattle.wagner.specs.Calls.{RowOne};
    ghost use Rattle.wagner.specs.Steps.{OneMore};

    // Row 1 alone, before the first placement.
    // Kept: no plainer, `default` would not say that row 1 is in the tree.
    pub(crate) fn alone() -> WagnerTree
        ensures { RowOne result }
    {
        WagnerTree {
            tree: Tree::alone(),
            placements: Filled::none(Placement::default()),
            length: 0,
        }
    }

    // Takes over what a placement on the tree has done.
    pub(crate) fn push(&mut self, done: Placed)
        ensures { OneMore self.old done self.new }
    {
        self.tree = done.tree;
        self.placements.push(done.placement);
        self.length = self.length.wrapping_add(done.placement.added);
    }
}
