// The refusals and their numbers.
ghost use Rattle.std.specs.Prelude.{◌≡◌};
ghost use Rattle.matrix_form.specs.Refusals.{refusal_number};

use matrix_form::refusal::Refusal;

// The number of a refusal.
// Kept: interface, this function is promised, and a `From` beside it would say the same a second time.
pub fn number(refusal: Refusal) -> u64
    ensures { result ≡ refusal_number refusal }
{
    refusal as u64
}
