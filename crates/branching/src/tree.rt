// Trees by value: the immediate ancestor of each node, by node number.
// Kept: no plainer, a tree is one of n taxa only once it is asked, and then `Candidate` and the plan of a fit hold both.
ghost use Rattle.std.specs.Prelude.{◌≡◌, length, min, set};
ghost use Rattle.matrix_form.specs.Shape.{last_node};
ghost use Rattle.tree_form.specs.Ancestors.{tree_size, ancestor};
ghost use Rattle.branching.specs.Index.{TreeIndex};
ghost use Rattle.branching.specs.Views.{ancestors};
ghost use Rattle.tree_form.specs.Nodes.{in_tree, taxa_placed};
ghost use Rattle.tree_form.specs.Growing.{climbs, row_one_alone};
ghost use Rattle.tree_form.specs.Within.{growing_tree_within, branching_within, next_htu_within};
ghost use Rattle.tree_form.specs.Hanging.{only_row_one, linked, hung};

use crate::growing::Candidate;
use matrix::{MOST_TAXA, questions};
use tree_form::tree::TREE_SIZE;

// A tree: entry v holds the immediate ancestor of node v, and 0 where it has none.
// Kept: interface, nodes are numbers in what C and the files lend, and the project has no heap: a tree is handed in and back by value, as its ancestors.
#[derive(Clone, Copy, PartialEq, Eq)]
pub struct Tree {
    pub(crate) ancestors: [usize; TREE_SIZE],
}

impl Tree {
    // Row 1 alone.
    // Kept: no plainer, `Tree::default()` would not say that row 1 is in the tree.
    #[tactic(auto, unfolding(tree_form::specs::Hanging::only_row_one))]
    pub fn alone() -> Tree
        ensures { ancestors result ≡ only_row_one }
    {
        Tree {
            ancestors: [0; TREE_SIZE],
        }
    }

    // The tree in which each node has the immediate ancestor that stands at its index, and none where 0 stands.
    pub fn from_ancestors(above: [usize; TREE_SIZE]) -> Tree
        ensures { ancestors result ≡ above }
    {
        Tree { ancestors: above }
    }

    // All entries, by node number: the immediate ancestor of each node, and 0 where it has none.
    pub fn list(&self) -> &[usize; TREE_SIZE]
        ensures { (result.now ≡ ancestors self.now) × (length result.now ≡ tree_size) }
    {
        &self.ancestors
    }

    // The immediate ancestor of node v, and 0 for a number beyond the entries.
    // Kept: no plainer, an entry of a tree holds 0 for none, and what callers compare and look up with the answer is a node's number.
    #[tactic(auto, using(std::proofs::lemmas::Option::gets), unfolding(tree_form::specs::Ancestors::ancestor))]
    pub fn ancestor(&self, v: usize) -> usize
        ensures { result ≡ ancestor (ancestors self.now) v }
    {
        self.ancestors.get(v).copied().unwrap_or(0)
    }

    // The tree with a as the immediate ancestor of node v, and the same tree for a number v beyond the entries.
    fn with_ancestor(mut self, v: usize, a: usize) -> Tree
        ensures { ancestors result ≡ set (ancestors self) v a }
    {
        // Kept: unproved, `if let Some(place) = self.ancestors.get_mut(v)` leaves the whole equation open, as std does not say what a list ends as behind get_mut
        if v < TREE_SIZE {
            self.ancestors[v] = a;
        }
        self
    }

    // The tree with taxon b linked to row 1.
    #[tactic(auto, unfolding(tree_form::specs::Hanging::linked))]
    pub fn link(self, b: usize) -> Tree
        ensures { ancestors result ≡ linked (ancestors self) b }
    {
        self.with_ancestor(b, 1)
    }

    // The tree with taxon b hung through y on the interval between c and its immediate ancestor.
    #[tactic(auto, unfolding(tree_form::specs::Hanging::hung))]
    pub fn hang(self, b: usize, c: usize, y: usize) -> Tree
        ensures { ancestors result ≡ hung (ancestors self) b c y }
    {
        let above = self.ancestor(c);
        self.with_ancestor(y, above)
            .with_ancestor(c, y)
            .with_ancestor(b, y)
    }

    // Whether node v is in the tree.
    #[tactic(auto, unfolding(tree_form::specs::Nodes::in_tree, tree_form::specs::Nodes::has_ancestor))]
    pub fn in_tree(&self, v: usize) -> bool
        ensures { result ≡ in_tree (ancestors self.now) v }
    {
        // Kept: no plainer, an entry holds 0 for no ancestor, and most callers of `ancestor` take its answer as a node: `entry_right` alone tells 0 apart as well
        v == 1 || 1 <= self.ancestor(v)
    }

    // How many of the taxa 1 to n are in the tree. A number beyond the entries is not.
    pub fn taxa_placed(&self, n: usize) -> usize
        ensures { result ≡ taxa_placed n (ancestors self.now) }
    {
        let end = n.min(TREE_SIZE - 1) + 1;
        (1..end).filter(|v| self.in_tree(*v)).count()
    }

    // The number of the next HTU, and 0 for more than 64 taxa.
    // Kept: interface, a call that could not fail still cannot: of more than 64 taxa there is no next HTU, and it answers 0.
    #[tactic(auto, using(tree_form::proofs::Nodes::taxa_placed_le), unfolding(tree_form::specs::Within::next_htu_within, tree_form::specs::Hanging::next_htu))]
    pub fn next_htu(&self, n: usize) -> usize
        ensures { result ≡ next_htu_within n (ancestors self.now) }
    {
        if MOST_TAXA < n {
            return 0;
        }
        (n + self.taxa_placed(n)).saturating_sub(1)
    }

    // Whether going up from node v reaches node 1 within so many steps.
    pub(crate) fn climbs(&self, steps: usize, v: usize) -> bool
        ensures { result ≡ climbs (ancestors self.now) steps v }
    {
        let mut at = v;
        // Kept: no plainer, a fold would go all steps behind node 1, and `successors` wants each node under a Some
        for _step in 0..steps {
            if at == 1 {
                return true;
            }
            at = self.ancestor(at);
        }
        at == 1
    }

    // Whether the tree is row 1 alone.
    fn is_alone(&self) -> bool
        ensures { result ≡ row_one_alone (ancestors self.now) }
    {
        *self == Tree::alone()
    }

    // Whether the tree is a growing tree of n taxa, n at most 64.
    #[tactic(auto, unfolding(tree_form::specs::Within::growing_tree_within, tree_form::specs::Growing::growing_tree))]
    pub fn is_growing(&self, n: usize) -> bool
        ensures { result ≡ growing_tree_within n (ancestors self.now) }
    {
        if MOST_TAXA < n {
            return false;
        }
        let candidate = Candidate {
            tree: self,
            n,
            placed: self.taxa_placed(n),
        };
        self.is_alone() || candidate.is_grown()
    }

    // Whether the tree is a branching of n taxa, n at most 64.
    #[tactic(auto, unfolding(tree_form::specs::Within::branching_within, tree_form::specs::Within::growing_tree_within, tree_form::specs::Growing::branching))]
    pub fn is_branching(&self, n: usize) -> bool
        ensures { result ≡ branching_within n (ancestors self.now) }
    {
        self.is_growing(n) && self.taxa_placed(n) == n
    }
}

// The last node of a tree of n taxa, as far as a tree has entries.
pub fn last_index(n: usize) -> usize
    ensures { result ≡ min (last_node n) 126 }
{
    questions::last_node(n).min(TREE_SIZE - 1)
}

// Node v, or 0 for a number beyond the entries of a tree.
// Kept: no plainer, the answer is an index of a list, and index 0 is that of no node: with Option each reading would begin with a match.
pub fn tree_index(v: usize) -> usize
    ensures { TreeIndex v result }
{
    if v < TREE_SIZE { v } else { 0 }
}
