// How the passes go over a branching: its walk, and the descendants of each node, found once for all characters.
ghost use Rattle.std.specs.Prelude.{◌≡◌};
ghost use Rattle.tree_form.specs.Ancestors.{ancestor};
ghost use Rattle.branching.specs.Views.{ancestors};
ghost use Rattle.fit_passes.specs.Plans.{sister_in};

use branching::tree::Tree;
use std::marker::Model;
use tree_form::tree::TREE_SIZE;
use tree_walk::descent::descent_over;
use tree_walk::walk::{Below, Descent, Walk};

// A tree of n taxa, its walk, and the descendants of each node by node number. Contracts see the number of taxa and the tree.
#[derive(Clone, Copy)]
pub struct Plan {
    pub(crate) n: usize,
    pub(crate) tree: Tree,
    pub(crate) walk: Walk,
    pub(crate) below: [Below; TREE_SIZE],
}

impl Model for Plan {
    ghost use Rattle.fit_passes.specs.Plans.{TaxaTree};

    ghost Value = { TaxaTree };

    ghost use Rattle.branching.specs.Views.{ancestors};
    ghost use Rattle.fit_passes.specs.Plans.{Planned};

    ghost view = { λ p. record { taxa = p.n; tree = ancestors p.tree; plan = p } };

    ghost inverse = { λ value. value.plan };

    ghost invariant = { Planned };
}

impl Plan {
    // The plan of a tree of n taxa.
    pub fn of(tree: &Tree, n: usize) -> Plan
        ensures taxa { result.taxa ≡ n }
        ensures tree { result.tree ≡ ancestors tree.now }
    {
        let Descent { walk, below } = descent_over(tree, n);
        let tree = *tree;
        Plan {
            n,
            tree,
            walk,
            below,
        }
    }

    // How many taxa the tree has.
    pub fn taxa(&self) -> usize
        ensures { result ≡ self.now.taxa }
    {
        self.n
    }

    // The immediate ancestor of node v, and 0 where it has none.
    pub fn ancestor(&self, v: usize) -> usize
        ensures { result ≡ ancestor self.now.tree v }
    {
        self.tree.ancestor(v)
    }
}

// Of the descendants of a node, the other one than v.
// Kept: no plainer, `Below` stands in tree_walk: a method there would be public for this crate alone.
#[tactic(auto, unfolding(crate::specs::Plans::sister_in))]
pub(crate) fn sister(below: Below, v: usize) -> usize
    ensures { result ≡ sister_in below v }
{
    if below.first == v {
        below.second
    } else {
        below.first
    }
}
