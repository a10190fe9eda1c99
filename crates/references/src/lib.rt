// The calls over references to structs: a placement on a tree that the caller keeps, the finished tree in a lent list of branch records,
// and the fit of a lent list of them.
#![tactic(auto)]

pub mod kept;
pub mod lent;
pub mod written;
