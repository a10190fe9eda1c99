// What a fit of the inner states is, and what the calls for it hand back: types, definitions and laws; no function.
#![tactic(auto)]

pub mod characters;
pub mod whole;
