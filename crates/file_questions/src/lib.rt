// The questions put to a file, in order: is it accepted, or which refusal has it in which line?
#![tactic(auto)]

pub mod branches;
pub mod judging;
