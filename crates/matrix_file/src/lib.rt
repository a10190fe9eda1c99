// Reading a matrix file.
#![tactic(auto)]

use file_form::NAME_SIZE;
use matrix::MOST_TAXA;

pub mod reading;
mod writing;

// The lent list has a name for each of 64 taxa.
pub const NAMES_SIZE: usize = MOST_TAXA * NAME_SIZE;
