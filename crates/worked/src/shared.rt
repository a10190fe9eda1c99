// What the parts share: cases that are read as steps, the matrix that a part holds, generated codes, weights, lines, and digests of lists.
pub(crate) mod cases;
pub(crate) mod digests;
pub(crate) mod fit_lines;
pub(crate) mod generated;
pub(crate) mod held;
pub(crate) mod lines;
pub(crate) mod tree_lines;
pub(crate) mod weights;

// Digests and pseudo-random numbers are below it: 2 ^ 31.
const MODULUS: u64 = 2147483648;
