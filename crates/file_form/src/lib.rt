// The form of a matrix file: its bytes and sizes.
#![tactic(auto)]

// What the header of a file says.
pub mod answer;
pub mod header;

// A file has at most so many bytes.
pub const MOST_BYTES: usize = 45000;

// A name has at most so many bytes, and takes so many of the lent list.
pub const NAME_SIZE: usize = 16;
