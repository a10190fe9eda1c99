// The bytes, fields and lines of a listing, put into lent bytes.
#![tactic(auto)]

// What a field of a line says: a number, a code, a mark, a node, or nothing.
mod field;
// The lines, one method for each kind.
mod lines;
// The names of taxa in lent bytes, and the nodes that they name.
pub mod names;
// A listing under way.
pub mod put;
