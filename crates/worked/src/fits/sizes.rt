// Calls whose lists have other sizes than the full one, up to one more.
use crate::fits::{Work, show_node};
use crate::shared::cases::{first, first_mut};
use crate::shared::fit_lines::{print_fit, print_total};
use fitting::calls::{fit, total};
use matrix::lent::Lent;
use matrix::{COLUMNS, LIGHTEST, MATRIX_SIZE};
use std::io;

// A list of the matrix's size with one code more.
type Longer = [i32; MATRIX_SIZE + 1];

// The codes of a list, and one more.
fn longer(codes: &[i32; MATRIX_SIZE]) -> Longer {
    let mut longer = [0; MATRIX_SIZE + 1];
    longer[..MATRIX_SIZE].copy_from_slice(codes);
    longer
}

// Keeps of a longer list what it has of the matrix's size.
fn keep(codes: &mut [i32; MATRIX_SIZE], longer: &Longer) {
    codes.copy_from_slice(&longer[..MATRIX_SIZE]);
}

// What is lent of a matrix and weights with a call: n and m, and then the sizes of both.
fn lent<'a>(codes: &'a Longer, weights: &'a [u8], counts: [usize; 7]) -> Lent<'a> {
    let [n, m, matrix_size, weights_size, ..] = counts;
    Lent {
        matrix: first(codes, matrix_size),
        weights: first(weights, weights_size),
        n,
        m,
    }
}

impl Work {
    // The fit by lists of these sizes, as lines; the lists of states keep what they then hold.
    pub(crate) fn show_fit_of(&mut self, rt: &impl Print, counts: [usize; 7]) -> io::Result<()> {
        let [n, _, _, _, low, high, chosen] = counts;
        let codes = longer(&self.held.codes);
        let mut lows = longer(&self.ranges.low);
        let mut highs = longer(&self.ranges.high);
        let mut chosens = longer(&self.ranges.chosen);
        let found = fit(
            &lent(&codes, &[LIGHTEST; COLUMNS + 1], counts),
            &self.records,
            first_mut(&mut lows, low),
            first_mut(&mut highs, high),
            first_mut(&mut chosens, chosen),
        );
        keep(&mut self.ranges.low, &lows);
        keep(&mut self.ranges.high, &highs);
        keep(&mut self.ranges.chosen, &chosens);
        print_fit(rt, found, n)
    }

    // The other calls by a matrix and weights of these sizes: the total, and the states of node 9 in character 9.
    pub(crate) fn show_others_of(&self, rt: &impl Print, counts: [usize; 7]) -> io::Result<()> {
        let codes = longer(&self.held.codes);
        let weights = [LIGHTEST; COLUMNS + 1];
        let lent = lent(&codes, &weights, counts);
        print_total(rt, total(&lent, &self.records))?;
        show_node(rt, &lent, &self.records, 9, 9)
    }
}
