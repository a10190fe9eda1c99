// The calls for other languages. Each is thin over a call of a crate below; it hands back numbers where that one hands back an enum.
#![tactic(auto)]

pub mod answers;
pub mod calls;
mod orders;
