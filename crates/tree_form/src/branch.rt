// Branch records: the form in which a branching is lent and a finished tree handed back.

// A branch: a node, its immediate ancestor, and the branch's length.
#[derive(Clone, Copy, Default, PartialEq, Eq)]
pub struct Branch {
    pub node: usize,
    pub ancestor: usize,
    pub length: u64,
}
