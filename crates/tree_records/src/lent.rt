// Branch records: those of a tree, and the tree of lent ones.
ghost use Rattle.std.specs.Prelude.{◌≡◌, ◌*◌, ◌-◌, min};
ghost use Rattle.matrix_form.specs.Shape.{most_taxa};
ghost use Rattle.branching.specs.Views.{ancestors};
ghost use Rattle.tree_form.specs.Branches.{with_records, ancestors_of, named_in_order, lent_branching};
ghost use Rattle.tree_records.specs.Lengths.{lengths_by};

use crate::branch::BRANCHES;
use branching::tree::{Tree, last_index};
use matrix::MOST_TAXA;
use tree_form::branch::Branch;
use tree_form::tree::TREE_SIZE;

// How many branch records are read or written: one for each node but node 1, as far as there are 125.
#[tactic(auto, unfolding(matrix_form::specs::Shape::last_node))]
pub fn record_count(n: usize) -> usize
    ensures { result ≡ min (2 * n - 3) 125 }
{
    last_index(n) - 1
}

// The records with those of a branching of n taxa written over the first 2n-3; the length of node v stands at index v.
pub fn with_records(
    tree: &Tree,
    n: usize,
    lengths: &[u64; TREE_SIZE],
    mut records: [Branch; BRANCHES],
) -> [Branch; BRANCHES]
    ensures { result ≡ with_records (lengths_by lengths.now) n (ancestors tree.now) records }
{
    for (i, record) in records[..record_count(n)].iter_mut().enumerate() {
        let v = i + 2;
        *record = Branch {
            node: v,
            ancestor: tree.ancestor(v),
            length: lengths[v],
        };
    }
    records
}

// The tree that the first 2n-3 records give.
pub fn tree_of(records: &[Branch; BRANCHES], n: usize) -> Tree
    ensures { ancestors result ≡ ancestors_of n records.now }
{
    let mut above = [0; TREE_SIZE];
    // Kept: unproved, it would be a zip of `iter_mut`, as was tried in `write_codes` of matrix_file: of the list behind it a proof knows the length alone.
    for (i, record) in records[..record_count(n)].iter().enumerate() {
        above[i + 2] = record.ancestor;
    }
    Tree::from_ancestors(above)
}

// Whether the first 2n-3 records, and of more than 64 taxa all 125, name nodes 2, 3, .. in order.
fn named_in_order(records: &[Branch; BRANCHES], n: usize) -> bool
    ensures { result ≡ named_in_order (min n most_taxa) records.now }
{
    records
        .iter()
        .take(record_count(n))
        .enumerate()
        .all(|(i, branch)| branch.node == i + 2)
}

// Whether the records are a branching of n taxa.
#[tactic(auto, using(tree_form::proofs::Lending::lending))]
pub fn lent_branching(records: &[Branch; BRANCHES], n: usize) -> bool
    ensures { result ≡ lent_branching n records.now }
{
    if MOST_TAXA < n {
        return false;
    }
    named_in_order(records, n) && tree_of(records, n).is_branching(n)
}
