// Definitions and laws of lists that every other crate uses; no function.
#![tactic(auto)]
