// The nodes of a lent matrix, as far as their rows and differences go.
ghost use Rattle.std.specs.Prelude.{◌≡◌, ◌≤◌, ◌*◌, ◌^◌};
ghost use Rattle.matrix_form.specs.Shape.{most_characters, row};
ghost use Rattle.difference_form.specs.Rows.{difference, interval_difference, node_difference};

use crate::rows;
use matrix::lent::Lent;

// What is lent with a call, of at most 128 characters.
#[derive(Clone, Copy)]
pub struct Nodes<'a> {
    pub lent: Lent<'a>,
    ghost narrow: { lent.m ≤ most_characters },
}

impl<'a> Nodes<'a> {
    // The difference of nodes a and b.
    #[tactic(auto, using(matrix_form::proofs::Row::row_128), unfolding(difference_form::specs::Rows::node_difference))]
    pub fn difference(&self, a: usize, b: usize) -> u64
        ensures is { result ≡ node_difference (difference self.now.lent.weights.now) (row self.now.lent.matrix.now self.now.lent.m) a b }
        ensures most { result ≤ most_characters * 2 ^ 40 }
    {
        rows::difference(self.lent.weights, self.lent.row(a), self.lent.row(b))
    }

    // The interval difference of node b from the interval between nodes c and d.
    #[tactic(auto, using(matrix_form::proofs::Row::row_128))]
    pub fn interval_difference(&self, b: usize, c: usize, d: usize) -> u64
        ensures { result ≡ interval_difference self.now.lent.weights.now (row self.now.lent.matrix.now self.now.lent.m b)
            (row self.now.lent.matrix.now self.now.lent.m c) (row self.now.lent.matrix.now self.now.lent.m d) }
    {
        rows::interval_difference(
            self.lent.weights,
            self.lent.row(b),
            self.lent.row(c),
            self.lent.row(d),
        )
    }
}
