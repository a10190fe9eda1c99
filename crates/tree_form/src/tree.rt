// How many entries a tree has.

// A tree has an entry for each of the nodes 0 to 126.
pub const TREE_SIZE: usize = 127;
