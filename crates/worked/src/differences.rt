// Differences, interval differences and medians, a line each.
use crate::shared::cases::{Steps, counts_of};
use crate::shared::held::Held;
use difference::calls;
use difference::codes::{apart, median};
use matrix::lent::Lent;
use matrix::refusal::number;
use matrix::{COLUMNS, LIGHTEST, MATRIX_SIZE};
use matrix_form::refusal::Refusal;
use std::io;

// A refusal within a line.
fn print_refusal(rt: &impl Print, why: Refusal) -> io::Result<()> {
    print!(rt; "R {}", number(why))
}

// The line of a length, or of why there is none.
fn print_length(rt: &impl Print, answer: Result<u64, Refusal>) -> io::Result<()> {
    match answer {
        Ok(length) => print!(rt; "{length}")?,
        Err(why) => print_refusal(rt, why)?,
    }
    println!(rt; "")
}

// The line of the medians of three nodes in a lent row of so many sevens, of which the first codes are shown.
fn show_medians(
    rt: &impl Print,
    lent: &Lent,
    nodes: [usize; 3],
    size: usize,
    shown: usize,
) -> io::Result<()> {
    let [a, b, c] = nodes;
    let mut sevens = [7; COLUMNS];
    let row = &mut sevens[..size.min(COLUMNS)];
    match calls::medians(lent, a, b, c, row) {
        Ok(()) => print!(rt; "medians")?,
        Err(why) => print_refusal(rt, why)?,
    }
    for code in row.iter().take(shown) {
        print!(rt; " {code}")?;
    }
    println!(rt; "")
}

// The line of the difference of two nodes where so many weights of 1 are lent with these codes.
fn show_lent(rt: &impl Print, codes: &[i32], weights: usize, nodes: [usize; 4]) -> io::Result<()> {
    let [n, m, a, b] = nodes;
    let alike = [LIGHTEST; COLUMNS + 1];
    let lent = Lent {
        matrix: codes,
        weights: &alike[..weights.min(COLUMNS + 1)],
        n,
        m,
    };
    print_length(rt, calls::difference(&lent, a, b))
}

// The codes' own functions: how far the first two are apart, and the median of each three behind them.
fn show_codes(rt: &impl Print, codes: &[i32]) -> io::Result<()> {
    let [first, second, others @ ..] = codes else {
        return Ok(());
    };
    print!(rt; "{}", apart(*first, *second))?;
    for [a, b, c] in others.as_chunks::<3>().0 {
        print!(rt; " {}", median(*a, *b, *c))?;
    }
    println!(rt; "")
}

// The matrix that is held.
#[derive(Drop)]
pub(crate) struct Work {
    pub(crate) held: Held,
}

impl Steps for Work {
    fn held(&mut self) -> &mut Held {
        &mut self.held
    }

    // `difference` shows the difference of two nodes, `lent` the same where so many codes and weights are lent, `interval` the interval
    // difference of a node from the interval between two others, `medians` the medians of three in a row of sevens of this size, `codes` what
    // the codes' own functions answer.
    fn show(&mut self, rt: &impl Print, word: &str, numbers: &[i32]) -> io::Result<()> {
        let held = &self.held;
        let [n, m, a, b, c, shown, size]: [usize; 7] = counts_of(numbers);
        let lent = held.lent(n, m);
        if word == "difference" {
            print_length(rt, calls::difference(&lent, a, b))
        } else if word == "lent" {
            show_lent(rt, &held.codes[..c.min(MATRIX_SIZE)], shown, [n, m, a, b])
        } else if word == "interval" {
            print_length(rt, calls::interval_difference(&lent, a, b, c))
        } else if word == "medians" {
            show_medians(rt, &lent, [a, b, c], size, shown)
        } else if word == "codes" {
            show_codes(rt, numbers)
        } else {
            Ok(())
        }
    }
}
