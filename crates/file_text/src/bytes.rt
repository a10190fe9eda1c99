// Bytes of names, and pieces of a text.
ghost use Rattle.std.specs.Prelude.{◌≡◌, ◌+◌, [], length, get_or, drop};
ghost use Rattle.text_form.specs.Bytes.{pieces_at, piece_length, first_piece, behind_piece, in_name};
ghost use Rattle.text_form.specs.Lines.{fields_of};
ghost use Rattle.file_text.specs.Steps.{FirstLine, BehindLines};

use text_form::{LINE_FEED, TAB};

// Whether a byte is a letter, a digit or `_`.
pub fn in_name(byte: u8) -> bool
    ensures { result ≡ in_name byte }
{
    byte.is_ascii_alphanumeric() || byte == b'_'
}

// The length of a text's first piece: the index of the first separator, or the text's length where there is none.
// Kept: no plainer, a last piece ends where the text ends, and both callers want its length; where a line has to be ended, `first_line` answers an Option.
fn piece_length(text: &[u8], separator: u8) -> usize
    ensures { result ≡ piece_length separator text.now }
{
    text.iter()
        .position(|byte| *byte == separator)
        .unwrap_or(text.len())
}

// How many separators a text has.
pub fn separators(text: &[u8], separator: u8) -> usize
    ensures { result + 1 ≡ length (pieces_at separator text.now) }
{
    let mut count = 0;
    // Kept: no plainer, `filter(..).count()` goes from one separator to the next byte by byte, and this loop over many bytes at once.
    for byte in text {
        count += usize::from(*byte == separator);
    }
    count
}

// The rest of a text from an index on: nothing past its end.
fn rest_from(text: &[u8], at: usize) -> &[u8]
    ensures { result.now ≡ drop at text.now }
{
    text.get(at..).unwrap_or(&[])
}

// The first piece of a text and what stands behind its separator: nothing where there is none.
// Kept: no plainer, `piece_length` is needed for what stands behind a piece; `split(..).next()` would be a second way to find the same index, and end in an Option that is never none.
pub fn cut_piece(text: &[u8], separator: u8) -> (&[u8], &[u8])
    ensures { (result.0.now ≡ first_piece separator text.now) × (result.1.now ≡ behind_piece separator text.now) }
{
    let length = piece_length(text, separator);
    (&text[..length], rest_from(text, length + 1))
}

// The first piece of a text.
pub fn first_piece(text: &[u8], separator: u8) -> &[u8]
    ensures { result.now ≡ first_piece separator text.now }
{
    cut_piece(text, separator).0
}

// What stands behind the first separator of a text: nothing where there is none.
pub fn behind_piece(text: &[u8], separator: u8) -> &[u8]
    ensures { result.now ≡ behind_piece separator text.now }
{
    cut_piece(text, separator).1
}

// Kept: no plainer, the length of the first piece tells whether a line feed ends it; with `position(..)?` here the index would be sought beside `piece_length`.
// The first line of a text and what stands behind its line feed, if it has one.
pub fn first_line(text: &[u8]) -> Option<(&[u8], &[u8])>
    ensures { FirstLine text.now result }
{
    let (line, behind) = cut_piece(text, LINE_FEED);
    if line.len() == text.len() {
        return None;
    }
    Some((line, behind))
}

// What stands behind the first `count` lines of a text: nothing where it has fewer.
pub fn behind_lines(text: &[u8], count: usize) -> &[u8]
    ensures { BehindLines text.now count result.now }
{
    let mut rest = text;
    for _line in 0..count {
        rest = behind_piece(rest, LINE_FEED);
    }
    rest
}

// A field of a line, the first at index 0: nothing where the line has no such field.
pub fn field(line: &[u8], index: usize) -> &[u8]
    ensures { result.now ≡ get_or (fields_of line.now) index [] }
{
    line.split(|byte| *byte == TAB).nth(index).unwrap_or(&[])
}
