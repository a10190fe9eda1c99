// An optional line of the header, by its letter. A text begins at the line's own place.
ghost use Rattle.std.specs.Prelude.{◌≡◌};
ghost use Rattle.text_form.specs.Lines.{lines_of};
ghost use Rattle.file_form.specs.Optional.{optional_there};

use file_text::bytes::{field, first_piece};
use text_form::LINE_FEED;

// Whether the line is there: whether the first field of the next line, up to a tab, a line feed or the end, is its letter.
pub(crate) fn optional_there(text: &[u8], letter: u8) -> bool
    ensures { result ≡ optional_there letter (lines_of text.now) }
{
    let [byte] = field(first_piece(text, LINE_FEED), 0) else {
        return false;
    };
    *byte == letter
}
