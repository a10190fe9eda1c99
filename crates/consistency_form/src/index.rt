// The consistency index.

// Quotient and remainder of 1000 times the floor, divided by a total.
#[derive(Clone, Copy, PartialEq, Eq)]
pub struct Index {
    pub quotient: u64,
    pub remainder: u64,
}
