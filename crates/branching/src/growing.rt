// The test whether a tree is a growing tree, entry by entry.
ghost use Rattle.std.specs.Prelude.{◌≡◌, ◌≤◌, length};
ghost use Rattle.matrix_form.specs.Shape.{most_taxa};
ghost use Rattle.branching.specs.Views.{ancestors};
ghost use Rattle.tree_form.specs.Nodes.{taxa_placed};
ghost use Rattle.tree_form.specs.Growing.{descendant_count, descendants_wanted, grown};
ghost use Rattle.branching.specs.Testing.{node_right, entry_right};

use crate::tree::{Tree, last_index};
use tree_form::tree::TREE_SIZE;

// A tree that may be a growing tree of n taxa, and how many of them it has placed.
#[derive(Clone, Copy)]
pub(crate) struct Candidate<'a> {
    pub tree: &'a Tree,
    pub n: usize,
    pub placed: usize,
    ghost most: { n ≤ most_taxa },
    ghost sized: { length (ancestors tree.now) ≡ 127 },
    ghost counted: { placed ≡ taxa_placed n (ancestors tree.now) },
}

impl<'a> Candidate<'a> {
    // Of how many nodes node v is the immediate ancestor.
    fn descendant_count(&self, v: usize) -> usize
        ensures { result ≡ descendant_count self.now.n (ancestors self.now.tree.now) v }
    {
        let end = last_index(self.n) + 1;
        (2..end).filter(|u| self.tree.ancestor(*u) == v).count()
    }

    // Whether node v, which has an ancestor, is right.
    #[tactic(auto, unfolding(crate::specs::Testing::node_right, matrix_form::specs::Shape::last_node))]
    fn node_right(&self, v: usize) -> bool
        ensures { result ≡ node_right self.now.n (ancestors self.now.tree.now) v }
    {
        if !self.tree.in_tree(self.tree.ancestor(v)) {
            return false;
        }
        self.descendant_count(v) == descendants_wanted(self.n, v)
            && self.tree.climbs(last_index(self.n), v)
    }

    // Whether entry v is right.
    // Kept: no plainer, an entry of a tree holds 0 for no ancestor, and what is right of it goes by that: an Option would be made of the 0 for this test.
    #[tactic(auto, using(lists::proofs::Between::nat_between, tree_form::proofs::Nodes::taxa_placed_le), unfolding(crate::specs::Testing::entry_right, tree_form::specs::Nodes::has_ancestor))]
    fn entry_right(&self, v: usize) -> bool
        ensures { result ≡ entry_right self.now.n self.now.placed (ancestors self.now.tree.now) v }
    {
        let last = (self.n + self.placed).saturating_sub(2);
        if self.tree.ancestor(v) == 0 {
            return v <= self.n || last < v;
        }
        (2..=last).contains(&v) && self.node_right(v)
    }

    // Whether the tree is one of the taxa that it has placed.
    pub(crate) fn is_grown(&self) -> bool
        ensures { result ≡ grown self.now.n self.now.placed (ancestors self.now.tree.now) }
    {
        if self.placed < 2 {
            return false;
        }
        self.descendant_count(1) == 1 && (0..TREE_SIZE).all(|v| self.entry_right(v))
    }
}

// Of how many nodes node v has to be the immediate ancestor.
#[tactic(auto, unfolding(tree_form::specs::Growing::descendants_wanted))]
fn descendants_wanted(n: usize, v: usize) -> usize
    ensures { result ≡ descendants_wanted n v }
{
    if v == 1 {
        1
    } else if v <= n {
        0
    } else {
        2
    }
}
