// The order in which taxa are placed.

// By rising advancement, or the taxon first that is nearest to any interval of the tree as it stands.
#[derive(Clone, Copy, PartialEq, Eq)]
pub enum Order {
    Advance,
    Closest,
}
