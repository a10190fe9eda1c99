// The keys by closeness: for each taxon that is not placed, the length that its placement would add. The interval difference of each taxon
// from each interval is kept, and a placement changes it for three intervals alone.
ghost use Rattle.std.specs.Prelude.{◌≡◌, ◌≤◌};
ghost use Rattle.matrix_form.specs.Shape.{most_taxa};

use branching::placement::Placed;
use difference::nodes::Nodes;
use tree_form::placement::Placement;
use tree_form::tree::TREE_SIZE;

// A placement that was made on a tree of a lent matrix: the nodes after it, and the tree and the placement.
#[derive(Clone, Copy)]
pub(crate) struct Made<'a, 'b> {
    pub(crate) nodes: Nodes<'a>,
    pub(crate) placed: &'b Placed,
    ghost taxon: { 1 ≤ nodes.lent.n },
    ghost taxa: { nodes.lent.n ≤ most_taxa },
}

impl<'a, 'b> Made<'a, 'b> {
    ghost use Rattle.branching.specs.Views.{ancestors};
    ghost use Rattle.lists.specs.Least.{least_key};
    ghost use Rattle.wagner.specs.Closeness.{kept, intervals, ThreeKept, RowMade};

    // Kept: no plainer, an interval is a node and its ancestor here as in a placement's own search, which is one line.
    // Keeps the interval differences of taxon v from the three intervals that belong to the placement, each at the place of its lower end.
    fn keep_three(&self, v: usize, differences: &mut [u64; TREE_SIZE])
        ensures { ThreeKept self.now v differences.old differences.new }
    {
        let tree = &self.placed.tree;
        let Placement {
            taxon,
            lower,
            htu,
            ..
        } = self.placed.placement;
        for c in [lower, htu, taxon] {
            if c < TREE_SIZE {
                differences[c] = self.nodes.interval_difference(v, c, tree.ancestor(c));
            }
        }
    }

    // Kept: unproved, up to `last_node(n) + 1` the check does not find that an index below the end is one of the list (docs/PROVING.md).
    // The least of what is kept of a taxon and the intervals of the tree, if it has one.
    fn least_kept(&self, differences: &[u64; TREE_SIZE]) -> Option<u64>
        ensures { result ≡ least_key (kept differences.now) (intervals self.now.nodes.lent.n (ancestors self.now.placed.now.tree)) }
    {
        let tree = &self.placed.tree;
        (2..2 * self.nodes.lent.n - 1)
            .filter(|c| tree.in_tree(*c))
            .map(|c| differences[c])
            .min()
    }

    // Makes right what was kept of taxon v before the placement: its key, if the tree has an interval.
    pub(crate) fn renew(&self, v: usize, differences: &mut [u64; TREE_SIZE]) -> Option<u64>
        ensures { RowMade self.now v differences.old differences.new result }
    {
        self.keep_three(v, differences);
        self.least_kept(differences)
    }
}
