// A finished tree as branch records, with their lengths under the codes of the matrix.
ghost use Rattle.std.specs.Prelude.{◌≡◌};
ghost use Rattle.branching.specs.Views.{ancestors};
ghost use Rattle.tree_form.specs.Branches.{with_records};
ghost use Rattle.wagner.specs.Steps.{length_in, LengthsOf};
ghost use Rattle.matrix.specs.Lent.{lent_lists};

use branching::tree::Tree;
use difference::nodes::Nodes;
use matrix::MOST_CHARACTERS;
use matrix::lent::Lent;
use std::array;
use tree_form::branch::Branch;
use tree_form::tree::TREE_SIZE;
use tree_records::branch::BRANCHES;
use tree_records::lent::with_records;

// The lengths of the branches, by node number: the difference of each row from that of its immediate ancestor, over the first 128 characters.
fn lengths(lent: &Lent, tree: &Tree) -> [u64; TREE_SIZE]
    ensures { LengthsOf (lent_lists lent.now) lent.now.m (ancestors tree.now) result }
{
    let m = lent.m.min(MOST_CHARACTERS);
    let nodes = Nodes {
        lent: Lent { m, ..*lent },
    };
    array::from_fn(|v| nodes.difference(v, tree.ancestor(v)))
}

// The records with those of a tree of n taxa written over the first 2n-3: node, immediate ancestor, and length under the codes of the
// matrix.
pub fn branches(lent: &Lent, tree: Tree, records: [Branch; BRANCHES]) -> [Branch; BRANCHES]
    ensures { result ≡ with_records (length_in (lent_lists lent.now) lent.now.m) lent.now.n (ancestors tree) records }
{
    with_records(&tree, lent.n, &lengths(lent, &tree), records)
}
