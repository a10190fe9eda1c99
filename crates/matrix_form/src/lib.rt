// The shapes of the lent lists, states from one to another, the refusals, and the questions put to a lent matrix: types, definitions and
// laws; no function.
#![tactic(auto)]

pub mod refusal;
pub mod spans;
