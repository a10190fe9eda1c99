// Whole numbers in decimal: the number and the code that a text says.
ghost use Rattle.std.specs.Prelude.{◌≡◌, true, ◌<◌, IfSome};
ghost use Rattle.text_form.specs.Decimal.{number_form, number_of, code_form, code_of};
ghost use Rattle.file_text.specs.Steps.{read_as, a_million, NumberSaid};

// A number has at most six digits.
const MOST_DIGITS: usize = 6;

// Each digit stands for ten times as much as the one behind it.
const BASE: usize = 10;

// Whether a text has the form of a number: of n and m, of the nodes of a `C` line, and of the size of a code.
fn number_form(text: &[u8]) -> bool
    ensures { result ≡ number_form text.now }
{
    if !(1..=MOST_DIGITS).contains(&text.len()) {
        return false;
    }
    if !text.iter().all(|byte| byte.is_ascii_digit()) {
        return false;
    }
    text.len() == 1 || text[0] != b'0'
}

// The number that digits say.
// Kept: no plainer, std's `parse` takes a text of UTF-8 and also `+7` and `007`, so the form is asked apart in any case, and nothing of its error is wanted.
fn number_of(digits: &[u8]) -> usize
    requires { number_form digits.now ≡ true }
    ensures { NumberSaid digits.now result }
{
    digits.iter().fold(0, |number: usize, digit| {
        let last = usize::from(digit.saturating_sub(b'0'));
        number.saturating_mul(BASE).saturating_add(last)
    })
}

// The number that a text says, if it has the form of one.
pub fn number(text: &[u8]) -> Option<usize>
    ensures said { result ≡ read_as number_form number_of text.now }
    ensures small { IfSome result (λ number. number < a_million) }
{
    if !number_form(text) {
        return None;
    }
    Some(number_of(text))
}

// The code that a text says, if it has the form of one: a number, or a minus and a number that is not zero.
pub fn code(text: &[u8]) -> Option<i32>
    ensures { result ≡ read_as code_form code_of text.now }
{
    match text.strip_prefix(b"-") {
        Some(digits) => match number(digits)? {
            0 => None,
            size => Some(-(size as i32)),
        },
        None => Some(number(text)? as i32),
    }
}
