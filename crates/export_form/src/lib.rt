// What the exported calls hand back and answer: types, definitions and laws; no function.
#![tactic(auto)]

pub mod answers;
