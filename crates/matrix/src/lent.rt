// What is lent with a call that reads a matrix, and the questions put to it. Each answers what its definition in specs/ answers, for every
// input.
ghost use Rattle.std.specs.Prelude.{◌≡◌, ◌-◌, length};
ghost use Rattle.lists.specs.Numbers.{numbers};

use crate::questions::{ask_codes, nodes_exist, within_limits};
use crate::rows::row;
use crate::weights::are_weights;
use crate::{COLUMNS, MATRIX_SIZE};
use matrix_form::refusal::Refusal;

// A matrix, the weights of its characters, and how many taxa and characters it has. Nothing is known of them before the questions.
// Kept: no plainer, calls that cannot fail are handed what no question was put to, so a view that passed would stand beside this one; each type above it holds the limits that it needs.
#[derive(Clone, Copy)]
pub struct Lent<'a> {
    pub matrix: &'a [i32],
    pub weights: &'a [u8],
    pub n: usize,
    pub m: usize,
}

impl<'a> Lent<'a> {
    ghost use Rattle.matrix_form.specs.Shape.{row};
    ghost use Rattle.matrix_form.specs.Outcomes.{ask_each};
    ghost use Rattle.matrix_form.specs.Questions.{matrix_shaped, ask_row_of, ask_rows_of, ask_htu};
    ghost use Rattle.matrix.specs.Lent.{lent_lists, matrix_asked, nodes_asked};

    // The row of node v: its codes for characters 1 to m, as far as the list goes.
    pub fn row(&self, v: usize) -> &'a [i32]
        ensures { result.now ≡ row self.now.matrix.now self.now.m v }
    {
        row(self.matrix, self.m, v)
    }

    // Whether the matrix has its shape, with n and m within their limits.
    #[tactic(auto, unfolding(matrix_form::specs::Questions::matrix_shaped))]
    pub fn is_shaped(&self) -> bool
        ensures { result ≡ matrix_shaped (length self.now.matrix.now) self.now.n self.now.m }
    {
        within_limits(self.n, self.m) && self.matrix.len() == MATRIX_SIZE
    }

    // The questions on the matrix and its weights alone: full sizes, limits, weights, codes of the taxa.
    #[tactic(auto, unfolding(matrix_form::specs::Questions::ask_matrix))]
    pub fn ask(&self) -> Result<(), Refusal>
        ensures { result ≡ matrix_asked self.now }
    {
        if self.matrix.len() != MATRIX_SIZE {
            return Err(Refusal::ListSize);
        }
        if self.weights.len() != COLUMNS {
            return Err(Refusal::ListSize);
        }
        if !within_limits(self.n, self.m) {
            return Err(Refusal::BeyondLimits);
        }
        if !are_weights(self.weights, self.m) {
            return Err(Refusal::WeightForm);
        }
        self.ask_rows(1, self.n + 1)
    }

    // The questions put to the row of node v, code by code.
    #[tactic(auto, unfolding(matrix_form::specs::Questions::ask_row_of))]
    fn ask_row(&self, v: usize) -> Result<(), Refusal>
        ensures { result ≡ ask_row_of (lent_lists self.now) self.now.m v }
    {
        ask_codes(self.row(v))
    }

    // Those put to the rows of nodes `first` to below `end`, row by row.
    pub fn ask_rows(&self, first: usize, end: usize) -> Result<(), Refusal>
        ensures { result ≡ ask_rows_of (lent_lists self.now) self.now.m (numbers first (end - first)) }
    {
        for v in first..end {
            self.ask_row(v)?;
        }
        Ok(())
    }

    // Those put to the row of node v, if it is an HTU.
    #[tactic(auto, unfolding(matrix_form::specs::Questions::ask_htu))]
    fn ask_htu(&self, v: usize) -> Result<(), Refusal>
        ensures { result ≡ ask_htu (lent_lists self.now) self.now.n self.now.m v }
    {
        if v <= self.n {
            return Ok(());
        }
        self.ask_row(v)
    }

    // Those put to the rows of the HTUs among the nodes of a list.
    fn ask_htus(&self, nodes: &[usize]) -> Result<(), Refusal>
        ensures { result ≡ ask_each (ask_htu (lent_lists self.now) self.now.n self.now.m) nodes.now }
    {
        for v in nodes {
            self.ask_htu(*v)?;
        }
        Ok(())
    }

    // The questions of a call that names some nodes: those on the matrix, whether the nodes exist, and the rows of the HTUs among them.
    #[tactic(auto, using(matrix_form::proofs::Passing::matrix_passed), unfolding(matrix_form::specs::Questions::ask_nodes))]
    pub fn ask_nodes(&self, nodes: &[usize]) -> Result<(), Refusal>
        ensures { result ≡ nodes_asked self.now nodes.now }
    {
        self.ask()?;
        if !nodes_exist(self.n, nodes) {
            return Err(Refusal::NotThere);
        }
        self.ask_htus(nodes)
    }
}
