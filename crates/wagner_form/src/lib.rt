// What the Wagner tree is, and what the call for it hands back: types, definitions and laws; no function.
#![tactic(auto)]
