// What a read answers where it refuses.
use matrix_form::refusal::Refusal;

// Why a file is refused, and at which line.
#[derive(Clone, Copy, PartialEq, Eq)]
pub struct Refused {
    pub refusal: Refusal,
    // Kept: interface, by document 01 the line is 0 where no line is at fault, and the listing prints that 0.
    pub line: usize,
}
