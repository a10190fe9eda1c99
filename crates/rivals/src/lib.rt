// Demand 3: one claim about a whole accepted matrix. It has no function.
#![tactic(auto)]
