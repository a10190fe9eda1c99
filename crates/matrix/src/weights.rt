// The weights of the characters.
ghost use Rattle.std.specs.Prelude.{◌≡◌};
ghost use Rattle.matrix_form.specs.Shape.{is_weight, weight_at};
ghost use Rattle.matrix_form.specs.Questions.{are_weights};

use crate::{HEAVIEST, LIGHTEST};

// Whether a weight is from 1 to 9.
#[tactic(auto, using(lists::proofs::Between::nat_between), unfolding(matrix_form::specs::Shape::is_weight))]
pub fn is_weight(weight: u8) -> bool
    ensures { result ≡ is_weight weight }
{
    (LIGHTEST..=HEAVIEST).contains(&weight)
}

// Whether the first m of the lent weights are from 1 to 9.
#[tactic(auto, unfolding(matrix_form::specs::Questions::are_weights, lists::specs::Tests::every))]
pub fn are_weights(weights: &[u8], m: usize) -> bool
    ensures { result ≡ are_weights weights.now m }
{
    weights.iter().take(m).all(|weight| is_weight(*weight))
}

// Kept: no plainer, as a method of `Lent` by character it would say `weight_at` of j - 1 in its contract all the same, and each of its three callers would.
// The weight at an index, counted from 0: that of character place + 1, and 1 past the end of the list.
#[tactic(auto, unfolding(matrix_form::specs::Shape::weight_at))]
pub fn weight_at(weights: &[u8], index: usize) -> u8
    ensures { result ≡ weight_at weights.now index }
{
    weights.get(index).copied().unwrap_or(LIGHTEST)
}
