// The floor of a matrix: the sum over characters of the weight times highest less lowest code among the taxa.
ghost use Rattle.std.specs.Prelude.{◌≡◌, ◌≤◌};
ghost use Rattle.consistency.specs.Steps.{FloorOf};
ghost use Rattle.consistency.specs.Steps.{narrowed, EndsOf, FloorIn, column_floors};
ghost use Rattle.matrix.specs.Lent.{lent_lists};

use difference::codes::{higher, lower, part};
use difference::nodes::Nodes;
use fit_sets::spans::only;
use matrix::codes::code_at;
use matrix::lent::Lent;
use matrix::weights::weight_at;
use matrix_form::spans::Span;

// The greatest low and the least high end of some states, with those of one taxon more.
fn narrowed(own: Span, ends: Span) -> Span
    ensures { result ≡ narrowed own ends }
{
    Span {
        low: higher(own.low, ends.low),
        high: lower(own.high, ends.high),
    }
}

// The nodes of a lent matrix that has a taxon.
#[derive(Clone, Copy)]
struct Taxa<'a> {
    nodes: Nodes<'a>,
    ghost some: { 1 ≤ nodes.lent.n },
}

impl<'a> Taxa<'a> {
    // The greatest low and the least high end of the taxa's states in character j, of each its code alone.
    fn ends(&self, j: usize) -> Span
        ensures { EndsOf self.now.nodes.lent.matrix.now self.now.nodes.lent.n j result }
    {
        let matrix = self.nodes.lent.matrix;
        let n = self.nodes.lent.n;
        let last = only(code_at(matrix, n, j));
        (1..n).fold(last, |ends, v| {
            narrowed(only(code_at(matrix, v, j)), ends)
        })
    }

    // The floor of character j, by its weight.
    fn character_floor(&self, weight: u8, j: usize) -> u64
        ensures { FloorIn weight self.now.nodes.lent.matrix.now self.now.nodes.lent.n j result }
    {
        let ends = self.ends(j);
        part(weight, ends.low, lower(ends.low, ends.high))
    }

    // The sum of the floors of all characters.
    fn sum_floors(&self) -> u64
        ensures { result ≡ column_floors (lent_lists self.now.nodes.lent) self.now.nodes.lent.n self.now.nodes.lent.m }
    {
        let lent = self.nodes.lent;
        (1..lent.m + 1)
            .map(|j| self.character_floor(weight_at(lent.weights, j - 1), j))
            .sum()
    }
}

// The floor of a lent matrix that no question refuses. It writes nothing. Which number it answers of codes out of range is left open: a
// call or a read has asked for these.
// Kept: interface, a call that could not fail still cannot: where the matrix has not its shape it answers 0.
pub fn floor_of(lent: &Lent) -> u64
    ensures { FloorOf (lent_lists lent.now) lent.now.n lent.now.m result }
{
    if !lent.is_shaped() {
        return 0;
    }
    let nodes = Nodes { lent: *lent };
    Taxa { nodes }.sum_floors()
}
