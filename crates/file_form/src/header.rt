// What the header of a file says.
use tree_form::order::Order;

// The kind of a file: `W`, whose Wagner tree is built, or `F`, which brings a branching of its own.
#[derive(Clone, Copy, PartialEq, Eq)]
pub enum Kind {
    Wagner,
    Own,
}

// What the header of a file says: its kind, the numbers of taxa and characters, the order of placing that a word of line 1 says, if any,
// and whether there is a `V` line.
#[derive(Clone, Copy, PartialEq, Eq)]
pub struct Header {
    pub kind: Kind,
    pub n: usize,
    pub m: usize,
    pub order: Option<Order>,
    // Kept: no plainer, the line is there or not, and the header says nothing else of it.
    pub weighed: bool,
}
