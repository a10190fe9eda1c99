// The keys by advancement: a taxon's key is its difference from row 1.
ghost use Rattle.std.specs.Prelude.{◌≡◌};
ghost use Rattle.wagner.specs.Order.{advancement, Advancements};
ghost use Rattle.matrix.specs.Lent.{lent_lists};

use difference::nodes::Nodes;
use matrix::MOST_TAXA;
use matrix::questions::one_to;
use std::array;

// A place for the key of each taxon, by row; place 0 is that of no taxon.
pub const KEYS: usize = MOST_TAXA + 1;

// The advancement of taxon v, its difference from row 1; of no taxon 0, so that few taxa take little time.
fn advancement(nodes: &Nodes, v: usize) -> u64
    ensures { result ≡ advancement (lent_lists nodes.now.lent) nodes.now.lent.n nodes.now.lent.m v }
{
    if !one_to(nodes.lent.n, v) {
        return 0;
    }
    nodes.difference(v, 1)
}

// The advancement of each taxon.
pub(crate) fn advancements(nodes: &Nodes) -> [u64; KEYS]
    ensures { Advancements (lent_lists nodes.now.lent) nodes.now.lent.n nodes.now.lent.m result }
{
    array::from_fn(|v| advancement(nodes, v))
}
