// The states from one to another: a closed interval of whole numbers, for every i32.

// The states from low to high.
#[derive(Clone, Copy, Default)]
pub struct Span {
    pub low: i32,
    pub high: i32,
}
