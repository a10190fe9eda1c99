// The branching of a file: its `C` lines.
ghost use Rattle.std.specs.Prelude.{List, ℕ, ◌≡◌, ◌≤◌, map, take, min};
ghost use Rattle.std.specs.Result.{IfOk};
ghost use Rattle.matrix_form.specs.Shape.{most_taxa};
ghost use Rattle.tree_form.specs.Ancestors.{tree_with};
ghost use Rattle.tree_form.specs.Asking.{branches_size};
ghost use Rattle.branching.specs.Views.{ancestors};
ghost use Rattle.text_form.specs.Lines.{lines_of};
ghost use Rattle.file_form.specs.Branches.{branch_count, ancestor_in, branch_sort, ask_tree};
ghost use Rattle.file_questions.specs.Steps.{behind_rows_most, left_of, LinesAsked};

use branching::tree::Tree;
use file_form::answer::Refused;
use file_form::header::Kind;
use file_header::answer::on_line;
use file_lines::branch::ask_branch;
use file_text::bytes::first_line;
use matrix_form::refusal::Refusal;
use tree_form::tree::TREE_SIZE;
use tree_records::lent::record_count;

// How many `C` lines a file has: one for each node but node 1 if it brings its own branching, as far as there are 125, else none.
// Kept: no plainer, `file_form` holds definitions and no function, so that a wrong one is refused in seconds; a method of `Kind` would be its first.
pub fn branch_count(kind: Kind, n: usize) -> usize
    ensures { result ≡ min (branch_count kind n) branches_size }
{
    match kind {
        Kind::Wagner => 0,
        Kind::Own => record_count(n),
    }
}

// For each node in turn, from node 2: is there another line, ended by a line feed? Is it the node's `C` line? The first stands in line
// `first`. The tree that they say, and what stands behind the last.
// Kept: no plainer, `split_inclusive` would hand out lines with their line feed, but not what stands behind the last of them.
pub(crate) fn ask_branches(
    text: &[u8],
    count: usize,
    first: usize,
) -> Result<(Tree, &[u8]), Refused>
    requires { (count ≤ branches_size) × (first ≤ behind_rows_most) }
    ensures asked { LinesAsked branch_sort text.now count first (left_of (λ found. found.1.now) result) }
    ensures tree { IfOk result (λ found. ancestors found.0 ≡ tree_with (map ancestor_in (take count (lines_of text.now)))) }
{
    let mut above = [0; TREE_SIZE];
    let mut rest = text;
    for done in 0..count {
        let Some((line, behind)) = first_line(rest) else {
            return Err(Refused {
                refusal: Refusal::BranchForm,
                line: first + done,
            });
        };
        above[done + 2] = on_line(first + done, ask_branch(line, done + 2))?;
        rest = behind;
    }
    Ok((Tree::from_ancestors(above), rest))
}

// Is the tree that the `C` lines of a file say a branching of n taxa? A `W` file has none.
// Kept: no plainer, each kind has a case in the definition as here; after `==` of kinds the case would be read back by the law of the derive.
pub(crate) fn ask_tree(tree: &Tree, kind: Kind, n: usize) -> Result<(), Refusal>
    requires { n ≤ most_taxa }
    ensures { (above : List ℕ) → ancestors tree.now ≡ tree_with above → result ≡ ask_tree kind n above }
{
    match kind {
        Kind::Wagner => Ok(()),
        Kind::Own => {
            if !tree.is_branching(n) {
                return Err(Refusal::NotBranching);
            }
            Ok(())
        }
    }
}
