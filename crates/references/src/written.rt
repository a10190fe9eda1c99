// A finished tree, handed back as a list of branch records.
ghost use Rattle.branching.specs.Views.{ancestors};
ghost use Rattle.references.specs.Written.{RecordsWritten};
ghost use Rattle.matrix.specs.Lent.{lent_lists};

use branching::tree::Tree;
use matrix::lent::Lent;
use matrix_form::refusal::Refusal;
use tree_form::branch::Branch;
use tree_records::branch::BRANCHES;
use tree_records::questions::ask_records;
use wagner::records::branches;

// Writes the branch records of a finished tree of n taxa over the first 2n-3 of a lent list of 125: node, immediate ancestor, and length
// under the codes and weights of the matrix. A refusal writes nothing.
pub fn write_branches(lent: &Lent, tree: Tree, out: &mut [Branch]) -> Result<(), Refusal>
    ensures { RecordsWritten (lent_lists lent.now) lent.now.n lent.now.m (ancestors tree) out.old out.new result }
{
    let Ok(old) = <[Branch; BRANCHES]>::try_from(&*out) else {
        return Err(Refusal::ListSize);
    };
    ask_records(lent, &tree, BRANCHES)?;
    out.copy_from_slice(&branches(lent, tree, old));
    Ok(())
}
