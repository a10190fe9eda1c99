// What the listing of a file is, line by line and whole, and what the call for it hands back: types, definitions and laws; no function.
#![tactic(auto)]
