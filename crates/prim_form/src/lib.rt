// What the Prim Network is, and what the call for it hands back: types, definitions and laws; no function.
#![tactic(auto)]

pub mod answer;
