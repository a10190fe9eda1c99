#![tactic(auto)]

// The fit of characters to a clade, for every kind of character, one by one and several together: definitions and laws; no function.
