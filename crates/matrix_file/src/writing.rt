// Writing what an accepted file says into the lent lists.
ghost use Rattle.std.specs.Prelude.{List, ℕ, [], ◌∷◌, ◌≡◌, true, ◌||◌, not, map, ◌*◌, ◌≤◌, length, get_or, take, drop};
ghost use Rattle.lists.specs.Over.{over, stripes};
ghost use Rattle.lists.specs.Tests.{every};
ghost use Rattle.text_form.specs.Decimal.{number_form, number_of, code_form, code_of};
ghost use Rattle.text_form.specs.Bytes.{tab, pieces_at, first_piece};
ghost use Rattle.file_form.specs.Job.{name_size};
ghost use Rattle.text_form.specs.Lines.{lines_of, fields_of};
ghost use Rattle.file_form.specs.Optional.{optional_fields};
ghost use Rattle.file_form.specs.Weights.{weight_form, weight_in, weights_form, weights_said};
ghost use Rattle.file_form.specs.Rows.{codes_in};
ghost use Rattle.matrix_file.specs.Steps.{TakesPieces, WritesPiece};
ghost use Rattle.file_form.specs.Written.{padded};
ghost use Rattle.tree_form.specs.LentNumbers.{record_size, record_numbers};
ghost use Rattle.file_form.specs.Formed.{record_in};

use file_form::NAME_SIZE;
use file_form::header::Header;
use file_header::weights::weight;
use file_lines::branch::{ANCESTOR, NODE};
use file_text::bytes::{behind_piece, cut_piece, field, first_piece, separators};
use file_text::numbers::{code, number};
use matrix::{COLUMNS, LIGHTEST};
use text_form::{LINE_FEED, TAB};
use tree_records::numbers::RECORD;

// Writes what each of the first `count` pieces of a text says, `width` items behind what the piece before says, by what writes it for one piece
// over the front of a list.
// Kept: no plainer, a text, its separator and how many of its pieces are three things that each caller has apart.
pub(crate) fn write_pieces<T, F: Fn(&mut [T], &[u8])>(
    out: &mut [T],
    width: usize,
    text: &[u8],
    separator: u8,
    count: usize,
    write: F,
)
    requires room { count * width ≤ length out.old }
    requires enough { count ≤ length (pieces_at separator text.now) }
    requires callable { TakesPieces (F.pre write) width (take count (pieces_at separator text.now)) }
    ensures { (says : List ℕ → List T) → WritesPiece (F.post write) says
        → out.new ≡ stripes width 0 (map says (take count (pieces_at separator text.now))) out.old }
{
    let mut rest = text;
    // Kept: unproved, tried was `text.split(..).take(count)`: in a function with type parameters the check refuses a loop over what lends its items; of `out.chunks_mut(width)` the elements stayed open.
    for i in 0..count {
        let (piece, behind) = cut_piece(rest, separator);
        write(&mut out[i * width..], piece);
        rest = behind;
    }
}

// Writes what each field of a line behind its first one says, one item, over the front of a list.
fn write_fields<T, F: Fn(&mut [T], &[u8])>(out: &mut [T], line: &[u8], write: F)
    requires room { length (drop 1 (fields_of line.now)) ≤ length out.old }
    requires callable { TakesPieces (F.pre write) 1 (drop 1 (fields_of line.now)) }
    ensures { (says : List ℕ → List T) → WritesPiece (F.post write) says
        → out.new ≡ stripes 1 0 (map says (drop 1 (fields_of line.now))) out.old }
{
    let fields = behind_piece(line, TAB);
    write_pieces(out, 1, fields, TAB, separators(line, TAB), write);
}

// Writes the code that a field says as the first element of a list.
fn write_code(out: &mut [i32], field: &[u8])
    requires formed { code_form field.now ≡ true }
    requires room { 1 ≤ length out.old }
    ensures { out.new ≡ over 0 (code_of field.now ∷ []) out.old }
{
    out[0] = code(field).unwrap_or(0);
}

// Writes the codes of a row's line, behind its name, over the front of a list.
pub(crate) fn write_codes(out: &mut [i32], line: &[u8])
    requires codes_formed { every code_form (drop 1 (fields_of line.now)) ≡ true }
    requires room { length (drop 1 (fields_of line.now)) ≤ length out.old }
    ensures { out.new ≡ over 0 (codes_in line.now) out.old }
{
    write_fields(out, line, write_code);
}

// Writes the name of a row's line and zeros behind it over the first 16 bytes of a list.
pub(crate) fn write_name(out: &mut [u8], line: &[u8])
    requires name_short { length (first_piece tab line.now) ≤ name_size }
    requires room { name_size ≤ length out.old }
    ensures { out.new ≡ over 0 (padded (first_piece tab line.now)) out.old }
{
    let name = first_piece(line, TAB);
    out[..name.len()].copy_from_slice(name);
    out[name.len()..NAME_SIZE].fill(0);
}

// Writes the weight that a field says as the first element of a list.
fn write_weight(out: &mut [u8], field: &[u8])
    requires formed { weight_form field.now ≡ true }
    requires room { 1 ≤ length out.old }
    ensures { out.new ≡ over 0 (weight_in field.now ∷ []) out.old }
{
    out[0] = weight(field).unwrap_or(LIGHTEST);
}

// Writes the weights of the m characters over the front of a list: those of the line if it is there, else 1 for each.
pub(crate) fn write_weights(weights: &mut [u8], text: &[u8], header: Header)
    requires weights_formed { (not header.weighed || weights_form header.m (optional_fields (lines_of text.now))) ≡ true }
    requires room { header.m ≤ length weights.old }
    ensures { weights.new
        ≡ over 0 (weights_said header.weighed header.m (optional_fields (lines_of text.now))) weights.old }
{
    if !header.weighed {
        weights[..header.m].fill(LIGHTEST);
        return;
    }
    write_fields(weights, first_piece(text, LINE_FEED), write_weight);
}

// The number that a field of a `C` line says.
fn number_in(line: &[u8], index: usize) -> usize
    requires { number_form (get_or (fields_of line.now) index []) ≡ true }
    ensures { result ≡ number_of (get_or (fields_of line.now) index []) }
{
    number(field(line, index)).unwrap_or(0)
}

// Writes the record that a `C` line says, its node, the ancestor and length 0, over the front of a list.
pub(crate) fn write_record(out: &mut [usize], line: &[u8])
    requires node { number_form (get_or (fields_of line.now) 1 []) ≡ true }
    requires above { number_form (get_or (fields_of line.now) 2 []) ≡ true }
    requires room { record_size ≤ length out.old }
    ensures { out.new ≡ over 0 (record_in line.now) out.old }
{
    let node = number_in(line, NODE);
    let ancestor = number_in(line, ANCESTOR);
    out[..RECORD].copy_from_slice(&[node, ancestor, 0]);
}
