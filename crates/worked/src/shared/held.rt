// The matrix that a part holds, with the weights of its characters.
use matrix::lent::Lent;
use matrix::{COLUMNS, LIGHTEST, MATRIX_SIZE};

// All codes of a matrix, and all weights.
#[derive(Drop)]
pub(crate) struct Held {
    pub(crate) codes: [i32; MATRIX_SIZE],
    pub(crate) weights: [u8; COLUMNS],
}

impl Held {
    // Each code is this one, and each weight 1.
    pub(crate) fn alike(code: i32) -> Held {
        Held {
            codes: [code; MATRIX_SIZE],
            weights: [LIGHTEST; COLUMNS],
        }
    }

    // What is lent of it with a call of n taxa and m characters.
    pub(crate) fn lent(&self, n: usize, m: usize) -> Lent<'_> {
        Lent {
            matrix: &self.codes,
            weights: &self.weights,
            n,
            m,
        }
    }
}
