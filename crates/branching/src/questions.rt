// The questions of a placement on a tree handed in, and of a finished tree.
// Kept: no plainer, what is lent stays, and a tree goes on by value: a struct of both would be made anew for each tree; so in the crates above.
ghost use Rattle.std.specs.Prelude.{◌≡◌, ◌≤◌};
ghost use Rattle.matrix_form.specs.Shape.{most_taxa};
ghost use Rattle.matrix_form.specs.Questions.{ask_rows_of};
ghost use Rattle.branching.specs.Views.{ancestors};
ghost use Rattle.tree_form.specs.Asking.{htus_of, ask_placement, ask_finished};
ghost use Rattle.matrix.specs.Lent.{lent_lists};

use crate::tree::Tree;
use matrix::lent::Lent;
use matrix::questions::one_to;
use matrix_form::refusal::Refusal;

// The questions put to the rows of the HTUs of a growing tree of n taxa.
fn ask_htus(lent: &Lent, tree: &Tree) -> Result<(), Refusal>
    requires { lent.now.n ≤ most_taxa }
    ensures { result ≡ ask_rows_of (lent_lists lent.now) lent.now.m (htus_of lent.now.n (ancestors tree.now)) }
{
    let end = lent.n + tree.taxa_placed(lent.n).max(2) - 1;
    lent.ask_rows(lent.n + 1, end)
}

// The questions of a placement of taxon b on a tree handed in: those on the matrix, whether the taxon exists, whether the tree is a growing
// tree, whether the taxon is not yet in it, and the rows of its HTUs.
#[tactic(auto, using(tree_form::proofs::Passed::growing_passed, matrix_form::proofs::Passing::matrix_passed), unfolding(tree_form::specs::Asking::ask_placement))]
pub fn ask_placement(lent: &Lent, tree: &Tree, b: usize) -> Result<(), Refusal>
    ensures { result ≡ ask_placement (lent_lists lent.now) lent.now.n lent.now.m (ancestors tree.now) b }
{
    lent.ask()?;
    if !one_to(lent.n, b) {
        return Err(Refusal::NotThere);
    }
    if !tree.is_growing(lent.n) {
        return Err(Refusal::NotBranching);
    }
    if tree.in_tree(b) {
        return Err(Refusal::NotThere);
    }
    ask_htus(lent, tree)
}

// The questions of a finished tree: those on the matrix, whether the tree is a branching of n taxa, and the rows of its HTUs.
#[tactic(auto, using(tree_form::proofs::Passed::branching_passed, matrix_form::proofs::Passing::matrix_passed), unfolding(tree_form::specs::Asking::ask_finished))]
pub fn ask_finished(lent: &Lent, tree: &Tree) -> Result<(), Refusal>
    ensures { result ≡ ask_finished (lent_lists lent.now) lent.now.n lent.now.m (ancestors tree.now) }
{
    lent.ask()?;
    if !tree.is_branching(lent.n) {
        return Err(Refusal::NotBranching);
    }
    ask_htus(lent, tree)
}
