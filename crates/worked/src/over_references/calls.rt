// Calls over references to what is kept here: what it holds afterwards, and the answer.
ghost use Rattle.std.specs.Prelude.{◌≡◌, length};
ghost use Rattle.matrix_form.specs.Outcomes.{afterwards};
ghost use Rattle.branching.specs.Views.{ancestors};
ghost use Rattle.tree_form.specs.Branches.{with_records};
ghost use Rattle.branching.specs.Calls.{placement_says, place_in};
ghost use Rattle.references.specs.Written.{code_difference, records_say};
ghost use Rattle.matrix_form.specs.Shape.{matrix_of};
ghost use Rattle.matrix.specs.Lent.{lent_lists};

use branching::tree::Tree;
use matrix::lent::Lent;
use matrix_form::refusal::Refusal;
use references::kept::place_in;
use references::written::write_branches;
use tree_form::branch::Branch;
use tree_form::placement::Placement;
use tree_records::branch::BRANCHES;

// A placement of taxon b on a tree that is kept here: the tree afterwards, and the answer.
// Kept: no plainer, it takes what `place_in` takes, which writes the matrix, where Lent lends it to be read.
pub(crate) fn placed_in(
    mut tree: Tree,
    matrix: &mut [i32],
    weights: &[u8],
    n: usize,
    m: usize,
    b: usize,
) -> (Tree, Result<Placement, Refusal>)
    ensures { ancestors result.0 ≡ afterwards (placement_says (matrix_of matrix.old weights.now) n m (ancestors tree) b)
        (place_in (matrix_of matrix.old weights.now) n m (ancestors tree) b).tree (ancestors tree) }
{
    let placed = place_in(&mut tree, matrix, weights, n, m, b);
    (tree, placed)
}

// The branch records of a finished tree written into a list that is lent from here: the list afterwards, and the answer.
pub(crate) fn written(
    lent: &Lent,
    tree: Tree,
    mut records: [Branch; BRANCHES],
) -> ([Branch; BRANCHES], Result<(), Refusal>)
    ensures { result.0 ≡ afterwards (records_say (lent_lists lent.now) lent.now.n lent.now.m (ancestors tree) (length records))
        (with_records (code_difference (lent_lists lent.now) lent.now.m) lent.now.n (ancestors tree) records) records }
{
    let asked = write_branches(lent, tree, &mut records);
    (records, asked)
}
