// A placement on a tree that the caller keeps.
ghost use Rattle.references.specs.Kept.{PlacementKept};
ghost use Rattle.matrix_form.specs.Shape.{matrix_of};

use branching::tree::Tree;
use matrix_form::refusal::Refusal;
use tree_form::placement::Placement;

// The placement of taxon b on a tree that the caller keeps, with its questions: `Tree::place`, whose tree is stored over the caller's. A
// refused placement leaves the tree as it was, and writes nothing.
// Kept: interface, it is the call over a tree that is kept, beside the one over a tree by value, whose refusal hands the tree back.
// Kept: no plainer, a struct lent to be written could come back with other weights, n and m: each promise would have to say that they stay.
pub fn place_in(
    tree: &mut Tree,
    matrix: &mut [i32],
    weights: &[u8],
    n: usize,
    m: usize,
    b: usize,
) -> Result<Placement, Refusal>
    ensures { PlacementKept (matrix_of matrix.old weights.now) matrix.new n m tree.old tree.new b result }
{
    let placed = tree
        .place(matrix, weights, n, m, b)
        .map_err(|kept| kept.refusal)?;
    *tree = placed.tree;
    Ok(placed.placement)
}
