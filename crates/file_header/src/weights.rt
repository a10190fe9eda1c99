// The weights of the characters in a file: the `V` line.
ghost use Rattle.std.specs.Prelude.{◌≡◌, drop};
ghost use Rattle.text_form.specs.Lines.{lines_of, fields_of};
ghost use Rattle.file_form.specs.Weights.{weight_form, weight_in, weights_form};
ghost use Rattle.file_form.specs.Formed.{ask_weights};
ghost use Rattle.file_text.specs.Steps.{read_as};

use file_form::header::Header;
use file_text::bytes::{first_line, separators};
use matrix_form::refusal::Refusal;
use text_form::TAB;

// The letter of the line.
pub(crate) const LETTER: u8 = b'V';

// The weight that a field says, if it is one digit from `1` to `9`.
pub fn weight(field: &[u8]) -> Option<u8>
    ensures { result ≡ read_as weight_form weight_in field.now }
{
    let [digit] = field else {
        return None;
    };
    if !(b'1'..=b'9').contains(digit) {
        return None;
    }
    Some(*digit - b'0')
}

// Whether the fields behind the first one of a line are m weights.
fn weights_form(line: &[u8], m: usize) -> bool
    ensures { result ≡ weights_form m (drop 1 (fields_of line.now)) }
{
    separators(line, TAB) == m
        && line
            .split(|byte| *byte == TAB)
            .skip(1)
            .all(|field| weight(field).is_some())
}

// The question put to the line with which a text begins, if it is there: is it ended by a line feed, with m weights behind its letter?
pub(crate) fn ask_weights(text: &[u8], header: Header) -> Result<(), Refusal>
    ensures { result ≡ ask_weights header (lines_of text.now) }
{
    if !header.weighed {
        return Ok(());
    }
    let Some((line, _)) = first_line(text) else {
        return Err(Refusal::WeightForm);
    };
    if !weights_form(line, header.m) {
        return Err(Refusal::WeightForm);
    }
    Ok(())
}
