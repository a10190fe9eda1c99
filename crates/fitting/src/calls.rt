// Kept: no plainer, the records are lent beside the matrix, and its questions come first: a struct of both would be made by each caller for one call.
// Kept: no plainer, `ask_branching` is promised as it is: a function beside it that answers the tree would be called by three, and take the place of one line in each.
// The calls on a lent branching: its fit, the states of one node in one character, and its fitted total.
ghost use Rattle.std.specs.Prelude.{◌≡◌};
ghost use Rattle.matrix_form.specs.Outcomes.{result_says};
ghost use Rattle.fit_form.specs.Calls.{total_answer};
ghost use Rattle.fit_form.specs.Handing.{FitAnswer, ask_node, NodeAnswer};
ghost use Rattle.matrix.specs.Lent.{lent_lists};

use crate::totals::total_of;
use crate::whole::{fit_tree, lists_full, states_at};
use fit_form::characters::States;
use fit_form::whole::Fit;
use matrix::lent::Lent;
use matrix::questions::{last_node, one_to};
use matrix_form::refusal::Refusal;
use tree_form::branch::Branch;
use tree_records::branch::BRANCHES;
use tree_records::lent::{lent_branching, tree_of};
use tree_records::questions::ask_branching;

// Fits a lent branching, and writes the lowest, the highest and the chosen state of each HTU in each character into three lists of the
// matrix's shape.
// Kept: no plainer, each promise of a struct of lists to be written would have to say that it lends the same ones still, as `Puts` does of a listing.
pub fn fit(
    lent: &Lent,
    records: &[Branch; BRANCHES],
    low: &mut [i32],
    high: &mut [i32],
    chosen: &mut [i32],
) -> Result<Fit, Refusal>
    ensures { FitAnswer (lent_lists lent.now) lent.now.n lent.now.m records.now low.old low.new high.old high.new chosen.old chosen.new result }
{
    if !lists_full(low.len(), high.len(), chosen.len()) {
        return Err(Refusal::ListSize);
    }
    ask_branching(lent, records)?;
    let tree = tree_of(records, lent.n);
    Ok(fit_tree(lent, &tree, low, high, chosen))
}

// The questions of the call for one node in one character: those on the matrix, whether node and character exist, and whether the records
// are a branching.
fn ask_node(
    lent: &Lent,
    records: &[Branch; BRANCHES],
    node: usize,
    character: usize,
) -> Result<(), Refusal>
    ensures { result ≡ ask_node (lent_lists lent.now) lent.now.n lent.now.m records.now node character }
{
    lent.ask()?;
    if !one_to(last_node(lent.n), node) {
        return Err(Refusal::NotThere);
    }
    if !one_to(lent.m, character) {
        return Err(Refusal::NotThere);
    }
    if !lent_branching(records, lent.n) {
        return Err(Refusal::NotBranching);
    }
    Ok(())
}

// The lowest, the highest and the chosen state of one node in one character. It writes nothing.
pub fn states(
    lent: &Lent,
    records: &[Branch; BRANCHES],
    node: usize,
    character: usize,
) -> Result<States, Refusal>
    ensures { NodeAnswer (lent_lists lent.now) lent.now.n lent.now.m records.now node character result }
{
    ask_node(lent, records, node, character)?;
    let tree = tree_of(records, lent.n);
    Ok(states_at(lent, &tree, node, character))
}

// The fitted total of a lent branching. It writes nothing.
#[tactic(auto, unfolding(fit_form::specs::Calls::total_answer))]
pub fn total(lent: &Lent, records: &[Branch; BRANCHES]) -> Result<u64, Refusal>
    ensures { result_says result ≡ total_answer (lent_lists lent.now) lent.now.n lent.now.m records.now }
{
    ask_branching(lent, records)?;
    let tree = tree_of(records, lent.n);
    Ok(total_of(lent, &tree))
}
