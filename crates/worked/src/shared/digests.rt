// A number that stands for a whole list of the matrix's size.
use crate::shared::MODULUS;
use difference::codes::apart;
use matrix::MATRIX_SIZE;
use std::io;

// A number that any changed code of a list changes, as far as such a number can.
fn digest(codes: &[i32; MATRIX_SIZE]) -> u64 {
    codes.iter().fold(0, |sum: u64, code| {
        ((sum % MODULUS) * 31 + apart(*code, -1000) % 4096) % MODULUS
    })
}

// The D line of a list.
pub(crate) fn print_digest(rt: &impl Print, codes: &[i32; MATRIX_SIZE]) -> io::Result<()> {
    println!(rt; "D\t{}", digest(codes))
}
