// The shapes of the lent lists, the refusals and their numbers, and the questions put to a lent matrix.
#![tactic(auto)]

pub mod codes;
pub mod lent;
pub mod questions;
pub mod refusal;
pub mod rows;
pub mod weights;

pub const ROWS: usize = 126;

pub const COLUMNS: usize = 128;

// A matrix has so many codes.
pub const MATRIX_SIZE: usize = ROWS * COLUMNS;

pub const MOST_TAXA: usize = 64;

pub const MOST_CHARACTERS: usize = 128;

pub const LOWEST_CODE: i32 = -999;

pub const HIGHEST_CODE: i32 = 999;

pub const LIGHTEST: u8 = 1;

pub const HEAVIEST: u8 = 9;
