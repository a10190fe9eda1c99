// What a fit finds of a node in one character.

// The states of a node in one character: the lowest and the highest of its range, and the chosen one.
#[derive(Clone, Copy, Default)]
pub struct States {
    pub low: i32,
    pub high: i32,
    pub chosen: i32,
}
