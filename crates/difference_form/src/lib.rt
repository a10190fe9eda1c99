// Difference, median and interval difference of rows: definitions and laws, and what the calls hand back; no function.
#![tactic(auto)]
