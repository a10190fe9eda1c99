// The calls on a lent matrix of n taxa and m characters: difference, interval difference and medians of its nodes.
ghost use Rattle.std.specs.Prelude.{◌≡◌};
ghost use Rattle.matrix_form.specs.Outcomes.{result_says};
ghost use Rattle.difference_form.specs.Calls.{difference_answer, interval_answer, MediansAnswer};
ghost use Rattle.matrix.specs.Lent.{lent_lists};

use crate::nodes::Nodes;
use crate::rows::write_medians;
use matrix::COLUMNS;
use matrix::lent::Lent;
use matrix_form::refusal::Refusal;

// The difference of nodes a and b.
#[tactic(auto, using(matrix_form::proofs::Passing::nodes_passed), unfolding(difference_form::specs::Calls::difference_answer, difference_form::specs::Rows::node_difference))]
pub fn difference(lent: &Lent, a: usize, b: usize) -> Result<u64, Refusal>
    ensures { result_says result ≡ difference_answer (lent_lists lent.now) lent.now.n lent.now.m a b }
{
    lent.ask_nodes(&[a, b])?;
    Ok(Nodes { lent: *lent }.difference(a, b))
}

// The interval difference of node b from the interval between nodes c and d.
#[tactic(auto, using(matrix_form::proofs::Passing::nodes_passed), unfolding(difference_form::specs::Calls::interval_answer))]
pub fn interval_difference(lent: &Lent, b: usize, c: usize, d: usize) -> Result<u64, Refusal>
    ensures { result_says result ≡ interval_answer (lent_lists lent.now) lent.now.n lent.now.m b c d }
{
    lent.ask_nodes(&[b, c, d])?;
    Ok(Nodes { lent: *lent }.interval_difference(b, c, d))
}

// Writes the medians of nodes a, b and c over the first m codes of a lent row of 128.
#[tactic(auto, using(matrix_form::proofs::Passing::nodes_passed), unfolding(difference_form::specs::Calls::ask_medians))]
pub fn medians(lent: &Lent, a: usize, b: usize, c: usize, out: &mut [i32]) -> Result<(), Refusal>
    ensures { MediansAnswer (lent_lists lent.now) lent.now.n lent.now.m a b c out.old out.new result }
{
    if out.len() != COLUMNS {
        return Err(Refusal::ListSize);
    }
    lent.ask_nodes(&[a, b, c])?;
    write_medians(out, lent.row(a), lent.row(b), lent.row(c));
    Ok(())
}
