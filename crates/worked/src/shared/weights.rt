// Lent weights of characters.
use crate::shared::generated::following;
use matrix::{COLUMNS, LIGHTEST};

// Weights from 1 to 9 by a sequence of pseudo-random numbers.
pub(crate) fn generated(seed: u64) -> [u8; COLUMNS] {
    let mut weights = [LIGHTEST; COLUMNS];
    let mut number = seed;
    for weight in &mut weights {
        number = following(number);
        *weight = (1 + (number / 65536) % 9) as u8;
    }
    weights
}
