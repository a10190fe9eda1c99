// The fit of a branching that is lent as a list of branch records.
ghost use Rattle.fit_form.specs.Handing.{FitAnswer};
ghost use Rattle.matrix.specs.Lent.{lent_lists};

use fit_form::whole::Fit;
use fitting::calls::fit;
use matrix::lent::Lent;
use matrix_form::refusal::Refusal;
use tree_form::branch::Branch;
use tree_records::branch::BRANCHES;

// Fits a branching that is lent as a list of 125 branch records: `calls::fit`, with a list of any length.
// Kept: no plainer, each promise of a struct of lists to be written would have to say that it lends the same ones still, as `Puts` does of a listing.
// Kept: interface, a list of another length is refused here, by 12; `fit` takes the whole array, and cannot be handed another one.
pub fn fit_lent(
    lent: &Lent,
    records: &[Branch],
    low: &mut [i32],
    high: &mut [i32],
    chosen: &mut [i32],
) -> Result<Fit, Refusal>
    ensures { FitAnswer (lent_lists lent.now) lent.now.n lent.now.m records.now
        low.old low.new high.old high.new chosen.old chosen.new result }
{
    let Ok(whole) = <&[Branch; BRANCHES]>::try_from(records) else {
        return Err(Refusal::ListSize);
    };
    fit(lent, whole, low, high, chosen)
}
