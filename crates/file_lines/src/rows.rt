// The questions put to a row's line.
ghost use Rattle.std.specs.Prelude.{◌≡◌, not, drop};
ghost use Rattle.file_form.specs.Job.{name_form, differs_from_all};
ghost use Rattle.text_form.specs.Lines.{fields_of};
ghost use Rattle.file_form.specs.Rows.{ask_field, ask_codes, ask_row};
ghost use Rattle.file_lines.specs.Steps.{names_passed};

use file_form::NAME_SIZE;
use file_form::header::Header;
use file_text::bytes::{first_piece, in_name, separators};
use file_text::numbers::code;
use matrix::questions::ask_code;
use matrix_form::refusal::Refusal;
use text_form::TAB;

// Whether a name is well formed.
fn name_form(name: &[u8]) -> bool
    ensures { result ≡ name_form name.now }
{
    let [first, others @ ..] = name else {
        return false;
    };
    name.len() <= NAME_SIZE
        && (first.is_ascii_alphabetic() && others.iter().all(|byte| in_name(*byte)))
}

// The questions put to the field of a code: is its form right? Then those put to the code.
fn ask_field(field: &[u8]) -> Result<(), Refusal>
    ensures { result ≡ ask_field field.now }
{
    let Some(code) = code(field) else {
        return Err(Refusal::CodeForm);
    };
    ask_code(code)
}

// For each code of a row's line from the left, behind its name, the questions put to it.
fn ask_codes(line: &[u8]) -> Result<(), Refusal>
    ensures { result ≡ ask_codes (drop 1 (fields_of line.now)) }
{
    for field in line.split(|byte| *byte == TAB).skip(1) {
        ask_field(field)?;
    }
    Ok(())
}

// Whether a name is one of those of earlier rows.
#[tactic(auto, using(crate::proofs::RowWalk::differs_passed))]
fn is_taken(name: &[u8], earlier: &[&[u8]]) -> bool
    ensures { differs_from_all name.now (names_passed earlier.now) ≡ not result }
{
    earlier.contains(&name)
}

// The questions put to a row's line: its number of fields, its name, which no earlier row has, and its codes.
pub fn ask_row(line: &[u8], header: Header, earlier: &[&[u8]]) -> Result<(), Refusal>
    ensures { result ≡ ask_row header (names_passed earlier.now) line.now }
{
    if separators(line, TAB) != header.m {
        return Err(Refusal::FieldCount);
    }
    let name = first_piece(line, TAB);
    if !name_form(name) {
        return Err(Refusal::NameForm);
    }
    if is_taken(name, earlier) {
        return Err(Refusal::NameTaken);
    }
    ask_codes(line)
}
