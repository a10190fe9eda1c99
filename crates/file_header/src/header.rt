// The header of a file: line 1, and the `V` line.
ghost use Rattle.std.specs.Prelude.{◌≡◌, true, ◌+◌};
ghost use Rattle.text_form.specs.Lines.{lines_of, fields_of};
ghost use Rattle.file_form.specs.Kinds.{kind_form, is_kind, kind_said};
ghost use Rattle.file_form.specs.Header.{order_word, first_form, header_in, header_lines, ask_first_line, ask_header};
ghost use Rattle.file_form.specs.Calls.{read_says};
ghost use Rattle.file_text.specs.Steps.{read_as};
ghost use Rattle.file_header.specs.Steps.{first_said, order_asked, with_value};

use crate::answer::on_line;
use crate::optional::optional_there;
use crate::weights::{LETTER, ask_weights};
use file_form::answer::Refused;
use file_form::header::{Header, Kind};
use file_text::bytes::{behind_piece, field, first_line, separators};
use file_text::numbers::number;
use matrix::questions::within_limits;
use matrix_form::refusal::Refusal;
use text_form::{LINE_FEED, TAB};
use tree_form::order::Order;

// How many lines a header takes: line 1, and the `V` line if there is one.
pub fn header_lines(header: Header) -> usize
    ensures { result ≡ header_lines header }
{
    1 + usize::from(header.weighed)
}

// The words for the two kinds of file.
const WAGNER: &[u8] = b"W";

const OWN: &[u8] = b"F";

// The kind that a word says, if it is one of the two with which line 1 begins.
// Kept: no plainer, `file_form` holds definitions and no function, so that a wrong one is refused in seconds; a `TryFrom` for `Kind` would be its first.
#[tactic(auto, using(text_form::proofs::Slices::same_pointwise), unfolding(file_form::specs::Kinds::is_kind, file_form::specs::Kinds::kind_said))]
fn kind(word: &[u8]) -> Option<Kind>
    ensures { result ≡ read_as is_kind kind_said word.now }
{
    if word == WAGNER {
        return Some(Kind::Wagner);
    }
    if word == OWN {
        return Some(Kind::Own);
    }
    None
}

// The field of line 1 that has the word for the order, if there is one.
const ORDER: usize = 3;

// How many tabs line 1 has at least.
const LEAST_TABS: usize = 2;

// How many tabs line 1 of a kind has at most.
// Kept: no plainer, `file_form` holds definitions and no function, so that a wrong one is refused in seconds; a method of `Kind` would be its first.
fn most_tabs(kind: Kind) -> usize
    ensures { result + 1 ≡ (kind_form kind).most_fields }
{
    match kind {
        Kind::Wagner => 3,
        Kind::Own => 2,
    }
}

// The kind, n and m that a line 1 of the right form says: it has three fields, and in a `W` file perhaps a fourth.
fn first_said(line: &[u8]) -> Option<(Kind, usize, usize)>
    ensures { result ≡ read_as first_form first_said (fields_of line.now) }
{
    let kind = kind(field(line, 0))?;
    if !(LEAST_TABS..=most_tabs(kind)).contains(&separators(line, TAB)) {
        return None;
    }
    let n = number(field(line, 1))?;
    let m = number(field(line, 2))?;
    Some((kind, n, m))
}

// The words for the two orders of placing.
const ADVANCE: &[u8] = b"advance";

const CLOSEST: &[u8] = b"closest";

// The order of placing that a word says, if it is one of the two for it.
// Kept: no plainer, as `TryFrom` of bytes it would stand in branching, beside `Order`, which knows no words of a file.
#[tactic(auto, using(text_form::proofs::Slices::same_pointwise))]
fn order(word: &[u8]) -> Option<Order>
    ensures { result ≡ order_word word.now }
{
    if word == ADVANCE {
        return Some(Order::Advance);
    }
    if word == CLOSEST {
        return Some(Order::Closest);
    }
    None
}

// The word for the order that a line 1 of the right form carries in a fourth field, if it has one: is it such a word?
fn order_in(line: &[u8]) -> Result<Option<Order>, Refusal>
    requires { first_form (fields_of line.now) ≡ true }
    ensures { result ≡ order_asked (fields_of line.now) }
{
    if separators(line, TAB) < ORDER {
        return Ok(None);
    }
    let Some(order) = order(field(line, ORDER)) else {
        return Err(Refusal::UnknownOrder);
    };
    Ok(Some(order))
}

// The questions put to line 1 of a file: is it ended by a line feed, and has it the right form? Is a fourth field a word for the order?
// Are n and m within their limits? What it says, and whether a `V` line stands behind it.
fn ask_first_line(file: &[u8]) -> Result<Header, Refusal>
    ensures { result ≡ with_value (ask_first_line (lines_of file.now)) (header_in (lines_of file.now)) }
{
    let Some((line, behind)) = first_line(file) else {
        return Err(Refusal::FirstLine);
    };
    let Some((kind, n, m)) = first_said(line) else {
        return Err(Refusal::FirstLine);
    };
    let order = order_in(line)?;
    if !within_limits(n, m) {
        return Err(Refusal::BeyondLimits);
    }
    let weighed = optional_there(behind, LETTER);
    Ok(Header {
        kind,
        n,
        m,
        order,
        weighed,
    })
}

// The questions put to the header of a file: those on line 1, and whether a `V` line behind it is well formed.
pub fn ask_header(file: &[u8]) -> Result<Header, Refused>
    ensures { read_says result ≡ ask_header (lines_of file.now) }
{
    let header = on_line(1, ask_first_line(file))?;
    on_line(2, ask_weights(behind_piece(file, LINE_FEED), header))?;
    Ok(header)
}
