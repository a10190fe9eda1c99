// The questions of a call on a lent branching, and of one that hands a finished tree back as branch records.
ghost use Rattle.std.specs.Prelude.{◌≡◌};
ghost use Rattle.branching.specs.Views.{ancestors};
ghost use Rattle.tree_form.specs.Asking.{ask_branching, ask_records};
ghost use Rattle.matrix.specs.Lent.{lent_lists};

use crate::branch::BRANCHES;
use crate::lent::lent_branching;
use branching::questions::ask_finished;
use branching::tree::Tree;
use matrix::lent::Lent;
use matrix_form::refusal::Refusal;
use tree_form::branch::Branch;

// The questions of a call on a lent branching that reads no HTU row: those on the matrix, and whether the records are a branching.
#[tactic(auto, unfolding(tree_form::specs::Asking::ask_branching))]
pub fn ask_branching(lent: &Lent, records: &[Branch; BRANCHES]) -> Result<(), Refusal>
    ensures { result ≡ ask_branching (lent_lists lent.now) lent.now.n lent.now.m records.now }
{
    lent.ask()?;
    if !lent_branching(records, lent.n) {
        return Err(Refusal::NotBranching);
    }
    Ok(())
}

// The questions of a call that hands a finished tree back as branch records, into a lent list of `room` records: the size of that list,
// those on the matrix, whether the tree is a branching of n taxa, and the rows of its HTUs.
#[tactic(auto, unfolding(tree_form::specs::Asking::ask_records))]
pub fn ask_records(lent: &Lent, tree: &Tree, room: usize) -> Result<(), Refusal>
    ensures { result ≡ ask_records (lent_lists lent.now) lent.now.n lent.now.m (ancestors tree.now) room }
{
    if room != BRANCHES {
        return Err(Refusal::ListSize);
    }
    ask_finished(lent, tree)
}
