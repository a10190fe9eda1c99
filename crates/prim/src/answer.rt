// What the call for the Prim Network hands back.
use filled::Filled;
use matrix::MOST_TAXA;
use prim_form::answer::Link;

// A network places at most 63 taxa behind row 1.
// Kept: no plainer, `wagner` has this number for its placements: they are equal since each taxon behind row 1 has one of each, and each is said where its list is.
pub const MOST_LINKS: usize = MOST_TAXA - 1;

// A network: its links, in order of placing, and the sum of their lengths.
#[derive(Clone, Copy)]
pub struct Network {
    pub links: Filled<Link, MOST_LINKS>,
    pub total: u64,
}
