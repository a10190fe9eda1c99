// Branch records of given ancestors, and of the same branching with other numbers for its HTUs.
use crate::shared::cases::count;
use matrix::MOST_TAXA;
use matrix::questions::last_node;
use std::array;
use tree_form::branch::Branch;
use tree_records::branch::BRANCHES;

// One branch.
pub(crate) fn branch(node: usize, ancestor: usize) -> Branch {
    Branch {
        node,
        ancestor,
        length: 0,
    }
}

// The branch records of these immediate ancestors, which stand by node number from 2.
pub(crate) fn records_of(ancestors: &[i32]) -> [Branch; BRANCHES] {
    array::from_fn(|i| {
        let record = |ancestor: &i32| branch(i + 2, count(*ancestor));
        ancestors.get(i).map_or(Branch::default(), record)
    })
}

// Another number for node v of n taxa: the HTUs are numbered from the last to the first.
#[tactic(auto, unfolding(matrix_form::specs::Shape::last_node))]
fn renumbered(v: usize, n: usize) -> usize {
    if (1..=MOST_TAXA).contains(&n) && (n + 1..=last_node(n)).contains(&v) {
        3 * n - 1 - v
    } else {
        v
    }
}

// A branching of n taxa whose HTUs have other numbers.
pub(crate) fn shuffled(records: &[Branch; BRANCHES], n: usize) -> [Branch; BRANCHES] {
    let mut other = [Branch::default(); BRANCHES];
    for record in records {
        let node = renumbered(record.node, n);
        if (2..BRANCHES + 2).contains(&node) {
            other[node - 2] = branch(node, renumbered(record.ancestor, n));
        }
    }
    other
}
