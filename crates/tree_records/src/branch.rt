// Branch records: the form in which a branching is lent and a finished tree handed back.

// A list of branch records has 125 of them.
pub const BRANCHES: usize = 125;
