// What the call for the Prim Network hands back.

// Kept: no plainer, a branch record has these types for other things.
// A link: the taxon that it places, the placed taxon that this one joins, and their difference.
#[derive(Clone, Copy, Default, PartialEq, Eq)]
pub struct Link {
    pub taxon: usize,
    pub joined: usize,
    pub length: u64,
}
