// One placement: a taxon goes onto a growing tree, which comes out one taxon larger.
ghost use Rattle.std.specs.Prelude.{◌≡◌, ◌≤◌};
ghost use Rattle.matrix_form.specs.Shape.{most_taxa, most_characters, row, matrix_of};
ghost use Rattle.matrix_form.specs.NodeRows.{with_row};
ghost use Rattle.branching.specs.Views.{ancestors};
ghost use Rattle.difference_form.specs.Rows.{difference};
ghost use Rattle.tree_form.specs.Hanging.{next_htu};
ghost use Rattle.tree_form.specs.Placing.{median_row, from_interval, link_first, hang};
ghost use Rattle.branching.specs.Unasked.{UnaskedDone};
ghost use Rattle.branching.specs.Nearest.{NearestOf, Leaves};
ghost use Rattle.branching.specs.Calls.{PlacementDone};
ghost use Rattle.matrix.specs.Lent.{lent_lists};

use crate::questions::ask_placement;
use crate::tree::{Tree, last_index};
use difference::nodes::Nodes;
use difference::rows::write_medians;
use matrix::lent::Lent;
use matrix::rows::{row, write_row};
use matrix::{COLUMNS, MOST_CHARACTERS, MOST_TAXA};
use matrix_form::refusal::Refusal;
use tree_form::placement::Placement;

// A tree, and the placement that it comes from.
#[derive(Clone, Copy)]
pub struct Placed {
    pub tree: Tree,
    pub placement: Placement,
}

// A placement that was refused: the tree as it was handed in, and why.
#[derive(Clone, Copy)]
pub struct NotPlaced {
    pub tree: Tree,
    pub refusal: Refusal,
}

// The interval difference of taxon b from the interval between c and its immediate ancestor.
#[tactic(auto, unfolding(tree_form::specs::Placing::from_interval))]
fn from_interval(nodes: &Nodes, tree: &Tree, b: usize, c: usize) -> u64
    ensures { result ≡ from_interval (difference nodes.now.lent.weights.now) (row nodes.now.lent.matrix.now nodes.now.lent.m) (ancestors tree.now) b c }
{
    nodes.interval_difference(b, c, tree.ancestor(c))
}

// Kept: no plainer, a struct of the three would be made in `place_unasked` for one search, and `link_first` takes the tree by value, to hand it on.
// The lower end of the interval of least interval difference, the least node number among equals.
fn nearest_interval(nodes: &Nodes, tree: &Tree, b: usize) -> Option<usize>
    ensures { NearestOf (lent_lists nodes.now.lent) nodes.now.lent.n nodes.now.lent.m (ancestors tree.now) b result }
{
    let end = last_index(nodes.lent.n) + 1;
    (2..end)
        .filter(|c| tree.in_tree(*c))
        .min_by_key(|c| from_interval(nodes, tree, b, *c))
}

// Writes the median codes of nodes b, c and e into the row of node y.
fn write_htu(matrix: &mut [i32], m: usize, b: usize, c: usize, e: usize, y: usize)
    requires { m ≤ most_characters }
    ensures { matrix.new ≡ with_row matrix.old y (median_row (row matrix.old m) b c e) }
{
    let b_row = row(matrix, m, b);
    let c_row = row(matrix, m, c);
    let e_row = row(matrix, m, e);
    let count = b_row.len().min(c_row.len()).min(e_row.len());
    let mut htu = [0; COLUMNS];
    write_medians(&mut htu, b_row, c_row, e_row);
    write_row(matrix, y, &htu[..count]);
}

impl Tree {
    // Taxon b linked to row 1.
    #[tactic(auto, using(crate::proofs::InMatrix::no_row), unfolding(tree_form::specs::Placing::link_first, difference_form::specs::Rows::node_difference))]
    fn link_first(self, nodes: &Nodes, b: usize) -> Placed
        ensures { Leaves (link_first (difference nodes.now.lent.weights.now) (row nodes.now.lent.matrix.now nodes.now.lent.m) (ancestors self) b)
            (next_htu nodes.now.lent.n (ancestors self)) nodes.now.lent.matrix.now nodes.now.lent.matrix.now result }
    {
        Placed {
            tree: self.link(b),
            placement: Placement {
                taxon: b,
                lower: 0,
                upper: 1,
                htu: 0,
                added: nodes.difference(b, 1),
            },
        }
    }

    // Taxon b hung on the interval between c and its immediate ancestor.
    // Kept: no plainer, a struct lent to be written could come back with other weights, n and m: each promise would have to say that they stay.
    fn hang_on(
        self,
        matrix: &mut [i32],
        weights: &[u8],
        n: usize,
        m: usize,
        b: usize,
        c: usize,
    ) -> Placed
        requires { (n ≤ most_taxa) × (m ≤ most_characters) }
        ensures { Leaves (hang (difference weights.now) (row matrix.old m) n (ancestors self) b c) (next_htu n (ancestors self)) matrix.old matrix.new result }
    {
        let upper = self.ancestor(c);
        let htu = self.next_htu(n);
        let lent = Lent {
            matrix,
            weights,
            n,
            m,
        };
        let added = Nodes { lent }.interval_difference(b, c, upper);
        write_htu(matrix, m, b, c, upper, htu);
        Placed {
            tree: self.hang(b, c, htu),
            placement: Placement {
                taxon: b,
                lower: c,
                upper,
                htu,
                added,
            },
        }
    }

    // Taxon b placed on its interval, without the questions of a placement; nothing is done for more than 64 taxa or 128 characters.
    // Kept: interface, a call that could not fail still cannot: beyond its limits it answers a placement of zeros.
    // Kept: no plainer, a struct lent to be written could come back with other weights, n and m: each promise would have to say that they stay.
    pub fn place_unasked(
        self,
        matrix: &mut [i32],
        weights: &[u8],
        n: usize,
        m: usize,
        b: usize,
    ) -> Placed
        ensures { UnaskedDone (matrix_of matrix.old weights.now) matrix.new n m (ancestors self) b result }
    {
        if MOST_TAXA < n || MOST_CHARACTERS < m {
            return Placed {
                tree: self,
                placement: Placement::default(),
            };
        }
        let lent = Lent {
            matrix,
            weights,
            n,
            m,
        };
        let nodes = Nodes { lent };
        match nearest_interval(&nodes, &self, b) {
            None => self.link_first(&nodes, b),
            Some(c) => self.hang_on(matrix, weights, n, m, b, c),
        }
    }

    // The placement of taxon b on a tree handed in, with its questions: the tree comes out one taxon larger, and the codes of the new HTU
    // are written into its row of the matrix. A refused placement hands the tree back unchanged, and writes nothing.
    // Kept: no plainer, a struct lent to be written could come back with other weights, n and m: each promise would have to say that they stay.
    pub fn place(
        self,
        matrix: &mut [i32],
        weights: &[u8],
        n: usize,
        m: usize,
        b: usize,
    ) -> Result<Placed, NotPlaced>
        ensures { PlacementDone (matrix_of matrix.old weights.now) matrix.new n m (ancestors self) b result }
    {
        let lent = Lent {
            matrix,
            weights,
            n,
            m,
        };
        ask_placement(&lent, &self, b).map_err(|refusal| NotPlaced {
            tree: self,
            refusal,
        })?;
        Ok(self.place_unasked(matrix, weights, n, m, b))
    }
}
