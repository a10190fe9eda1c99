// The question put to the `C` line of a node.
ghost use Rattle.std.specs.Prelude.{◌≡◌};
ghost use Rattle.matrix_form.specs.Outcomes.{ask};
ghost use Rattle.text_form.specs.Lines.{fields_of};
ghost use Rattle.file_form.specs.Branches.{branch_form, ancestor_in};
ghost use Rattle.file_text.specs.Steps.{read_as};
ghost use Rattle.file_header.specs.Steps.{with_value};

use file_text::bytes::{field, separators};
use file_text::numbers::number;
use matrix_form::refusal::Refusal;
use text_form::TAB;

// The field of a `C` line that says its node.
pub const NODE: usize = 1;

// The one that says the node's immediate ancestor.
pub const ANCESTOR: usize = 2;

// The word with which it begins.
const WORD: &[u8] = b"C";

// The immediate ancestor that a line says, if it is the `C` line of node v: three fields, `C`, the number of the node, and a number.
fn ancestor_in(line: &[u8], v: usize) -> Option<usize>
    ensures { result ≡ read_as (λ line. branch_form v (fields_of line)) ancestor_in line.now }
{
    if separators(line, TAB) != ANCESTOR {
        return None;
    }
    if field(line, 0) != WORD {
        return None;
    }
    let ancestor = number(field(line, ANCESTOR))?;
    if number(field(line, NODE)) != Some(v) {
        return None;
    }
    Some(ancestor)
}

// The question put to a line: is it the `C` line of node v? The immediate ancestor that it says.
#[tactic(auto, using(crate::proofs::BranchLine::line_asked))]
pub fn ask_branch(line: &[u8], v: usize) -> Result<usize, Refusal>
    ensures { result ≡ with_value (ask (branch_form v (fields_of line.now)) Refusal.BranchForm (Ok tt)) (ancestor_in line.now) }
{
    ancestor_in(line, v).ok_or(Refusal::BranchForm)
}
