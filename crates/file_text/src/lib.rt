// The text of a file: bytes, lines and fields, and the numbers that they say.
#![tactic(auto)]

pub mod bytes;
pub mod numbers;
