// What a read answers where it refuses.
ghost use Rattle.std.specs.Prelude.{◌≡◌};
ghost use Rattle.file_header.specs.Steps.{at_line};

use file_form::answer::Refused;
use matrix_form::refusal::Refusal;

// The answer to questions put to a line: a refusal has the number of the line.
pub fn on_line<T>(line: usize, answer: Result<T, Refusal>) -> Result<T, Refused>
    ensures { result ≡ at_line line answer }
{
    answer.map_err(|refusal| Refused { refusal, line })
}
