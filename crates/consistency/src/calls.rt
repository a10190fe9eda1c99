// Kept: no plainer, as in the calls of `fitting`: the records are lent beside the matrix, and the question and the tree are two functions of tree_records.
// The call for the floor of a lent matrix, and the one for the consistency index of a lent branching.
ghost use Rattle.std.specs.Prelude.{◌≡◌};
ghost use Rattle.matrix_form.specs.Outcomes.{result_says};
ghost use Rattle.consistency_form.specs.Calls.{floor_answer, index_answer};
ghost use Rattle.matrix.specs.Lent.{lent_lists};

use crate::floor::floor_of;
use crate::index::index_of;
use consistency_form::index::Index;
use fitting::totals::total_of;
use matrix::lent::Lent;
use matrix_form::refusal::Refusal;
use tree_form::branch::Branch;
use tree_records::branch::BRANCHES;
use tree_records::lent::tree_of;
use tree_records::questions::ask_branching;

// The floor of a lent matrix. It writes nothing.
#[tactic(auto, using(crate::proofs::Answered::floor_passed), unfolding(consistency_form::specs::Calls::floor_answer))]
pub fn floor(lent: &Lent) -> Result<u64, Refusal>
    ensures { result_says result ≡ floor_answer (lent_lists lent.now) lent.now.n lent.now.m }
{
    lent.ask()?;
    Ok(floor_of(lent))
}

// The consistency index of a lent branching, by the floor of its matrix and its fitted total: none with a total of 0. It writes nothing.
#[tactic(auto, unfolding(consistency_form::specs::Calls::index_answer))]
pub fn index(lent: &Lent, records: &[Branch; BRANCHES]) -> Result<Option<Index>, Refusal>
    ensures { result_says result ≡ index_answer (lent_lists lent.now) lent.now.n lent.now.m records.now }
{
    ask_branching(lent, records)?;
    let tree = tree_of(records, lent.n);
    let floor = floor_of(lent);
    let total = total_of(lent, &tree);
    Ok(index_of(floor, total))
}
