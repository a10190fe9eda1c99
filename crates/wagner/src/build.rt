// The whole build: from row 1 alone, taxon after taxon is placed, by rising advancement or the closest first.
ghost use Rattle.wagner.specs.Calls.{TreeBuilt, BuildDone};
ghost use Rattle.matrix_form.specs.Shape.{matrix_of};

use crate::answer::WagnerTree;
use crate::closeness::Made;
use crate::keys::Keys;
use crate::order::{KEYS, advancements};
use difference::nodes::Nodes;
use matrix::lent::Lent;
use matrix_form::refusal::Refusal;
use tree_form::order::Order;
use tree_form::tree::TREE_SIZE;

// The Wagner tree of a lent matrix that no question refuses, in an order of placing. The codes of the HTUs are written into their rows of
// the matrix. Whatever is handed in, nothing else is written, and where the matrix has not its shape nothing is. Which tree it answers of
// codes or weights out of range is left open: a call or a read has asked for these.
// Kept: interface, a call that could not fail still cannot: where the matrix has not its shape it answers row 1 alone.
// Kept: no plainer, a struct lent to be written could come back with other weights, n and m: each promise would have to say that they stay.
pub fn build_tree(
    matrix: &mut [i32],
    weights: &[u8],
    n: usize,
    m: usize,
    order: Order,
) -> WagnerTree
    ensures { TreeBuilt order (matrix_of matrix.old weights.now) matrix.new n m result }
{
    let mut built = WagnerTree::alone();
    let lent = Lent {
        matrix,
        weights,
        n,
        m,
    };
    if !lent.is_shaped() {
        return built;
    }
    // The keys before the first placement: in both orders those of the advancements. Zeros come first, so that the table is filled where it stands.
    let mut keys = Keys {
        order,
        keys: [0; KEYS],
        table: [[0; TREE_SIZE]; KEYS],
    };
    keys.keys = advancements(&Nodes { lent });
    for _turn in 1..n {
        let b = keys.next(n, &built.tree);
        let placed = built.tree.place_unasked(matrix, weights, n, m, b);
        let lent = Lent {
            matrix,
            weights,
            n,
            m,
        };
        let nodes = Nodes { lent };
        keys.renew(&Made {
            nodes,
            placed: &placed,
        });
        built.push(placed);
    }
    built
}

// The Wagner tree of a lent matrix of n taxa and m characters, by their weights, in an order of placing, with its questions. The codes of
// the HTUs are written into their rows of the matrix; a refusal writes nothing.
// Kept: no plainer, a struct lent to be written could come back with other weights, n and m: each promise would have to say that they stay.
#[tactic(auto, using(matrix_form::proofs::Passing::matrix_passed, matrix_form::proofs::Passing::weights_passed))]
pub fn build(
    matrix: &mut [i32],
    weights: &[u8],
    n: usize,
    m: usize,
    order: Order,
) -> Result<WagnerTree, Refusal>
    ensures { BuildDone order (matrix_of matrix.old weights.now) matrix.new n m result }
{
    let lent = Lent {
        matrix,
        weights,
        n,
        m,
    };
    lent.ask()?;
    Ok(build_tree(matrix, weights, n, m, order))
}
