// One placement.

// The taxon, the lower end of its interval (0: none), the upper end, the new HTU (0: none), the length added.
// Kept: no plainer, a tree's numbers have 0 for none, and lines and keys read both alike: with an Option here both forms of none would stand side by side.
#[derive(Clone, Copy, Default)]
pub struct Placement {
    pub taxon: usize,
    pub lower: usize,
    pub upper: usize,
    pub htu: usize,
    pub added: u64,
}
