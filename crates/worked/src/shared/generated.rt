// Matrices of generated codes.
use crate::shared::MODULUS;
use matrix::MATRIX_SIZE;

// The next number of a sequence of pseudo-random numbers below the modulus.
pub(crate) fn following(number: u64) -> u64 {
    ((number % MODULUS) * 1103515245 + 12345) % MODULUS
}

// Fills a matrix with some of eight codes, by such numbers.
pub(crate) fn fill(matrix: &mut [i32; MATRIX_SIZE], codes: [i32; 8], seed: u64) {
    let mut number = seed;
    for code in matrix {
        number = following(number);
        *code = codes[((number / 65536) % 8) as usize];
    }
}
