// Prim Networks, in the form of the listing's P, p and R lines, with taxa by number.
use crate::shared::cases::{Steps, counts_of};
use crate::shared::held::Held;
use crate::shared::lines::print_answer;
use matrix::lent::Lent;
use matrix::{COLUMNS, LIGHTEST, MATRIX_SIZE};
use prim::answer::Network;
use prim::network::network;
use prim_form::answer::Link;
use std::io;

// The P lines of a network's links and the p line of their total.
fn print_links(rt: &impl Print, network: &Network) -> io::Result<()> {
    for link in network.links.as_slice() {
        let Link {
            taxon,
            joined,
            length,
        } = *link;
        println!(rt; "P\t{taxon}\t{joined}\t{length}")?;
    }
    println!(rt; "p\t{}", network.total)
}

// These lines of the network of what is lent, or the R line.
fn show_network(rt: &impl Print, lent: &Lent) -> io::Result<()> {
    print_answer(rt, network(lent), |network| print_links(rt, &network))
}

// The lines of n taxa and m characters where so many weights of 1 are lent with these codes.
fn show_lent(
    rt: &impl Print,
    matrix: &[i32],
    weights: usize,
    n: usize,
    m: usize,
) -> io::Result<()> {
    let alike = [LIGHTEST; COLUMNS + 1];
    let weights = &alike[..weights.min(COLUMNS + 1)];
    let lent = Lent {
        matrix,
        weights,
        n,
        m,
    };
    show_network(rt, &lent)
}

// The matrix that is held.
#[derive(Drop)]
pub(crate) struct Work {
    pub(crate) held: Held,
}

impl Steps for Work {
    fn held(&mut self) -> &mut Held {
        &mut self.held
    }

    // `show` shows the network of n taxa and m characters, `lent` the same where so many codes and weights are lent.
    fn show(&mut self, rt: &impl Print, word: &str, numbers: &[i32]) -> io::Result<()> {
        let held = &self.held;
        let [n, m, codes, weights]: [usize; 4] = counts_of(numbers);
        if word == "show" {
            show_network(rt, &held.lent(n, m))
        } else if word == "lent" {
            show_lent(rt, &held.codes[..codes.min(MATRIX_SIZE)], weights, n, m)
        } else {
            Ok(())
        }
    }
}
