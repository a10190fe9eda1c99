// Fits, nodes by number: T, t and H lines and digests of the three lent lists, or the R line of a refusal.
mod branchings;
mod sizes;

use crate::fits::branchings::{branch, records_of, shuffled};
use crate::shared::cases::{Steps, counts_of};
use crate::shared::digests::print_digest;
use crate::shared::fit_lines::{print_digests, print_fit, print_node, print_states, print_total};
use crate::shared::held::Held;
use crate::shared::lines::print_answer;
use branching::tree::Tree;
use fitting::calls::{fit, states, total};
use fitting::ranges::Ranges;
use fitting::whole::fit_tree;
use matrix::lent::Lent;
use matrix::questions::last_node;
use std::io;
use tree_form::branch::Branch;
use tree_form::order::Order;
use tree_records::branch::BRANCHES;
use wagner::build::build;
use wagner::records::branches;

// The matrix, branch records for it, and the lists that its fits write.
#[derive(Drop)]
pub(crate) struct Work {
    pub(crate) held: Held,
    pub(crate) records: [Branch; BRANCHES],
    pub(crate) ranges: Ranges,
}

// Writes a branch record: the node that stands there by number, and the node and the ancestor that it gets.
fn write_record(records: &mut [Branch; BRANCHES], counts: [usize; 7]) {
    let [v, node, ancestor, ..] = counts;
    if (2..BRANCHES + 2).contains(&v) {
        records[v - 2] = branch(node, ancestor);
    }
}

// The H line of node v in character j by the call for one node, or its R line.
pub(crate) fn show_node(
    rt: &impl Print,
    lent: &Lent,
    records: &[Branch; BRANCHES],
    v: usize,
    j: usize,
) -> io::Result<()> {
    let states = states(lent, records, v, j);
    print_answer(rt, states, |states| print_states(rt, v, j, states))
}

impl Work {
    // Codes of 0, weights of 1, no branch, and lists that no fit has written.
    pub(crate) fn new() -> Work {
        Work {
            held: Held::alike(0),
            records: [Branch::default(); BRANCHES],
            ranges: Ranges::alike(-1, -2, -3),
        }
    }

    // The fit, the total by the call for the total, and the digests of the three lists, which keep what they then hold.
    fn show_fit(&mut self, rt: &impl Print, n: usize, m: usize) -> io::Result<()> {
        let lent = self.held.lent(n, m);
        let found = fit(
            &lent,
            &self.records,
            &mut self.ranges.low,
            &mut self.ranges.high,
            &mut self.ranges.chosen,
        );
        print_fit(rt, found, n)?;
        print_total(rt, total(&lent, &self.records))?;
        print_digests(rt, &self.ranges)
    }

    // The H lines of all nodes in characters 1 to m by the call for one node.
    fn show_nodes(&self, rt: &impl Print, n: usize, m: usize) -> io::Result<()> {
        let lent = self.held.lent(n, m);
        for v in 1..=last_node(n) {
            for j in 1..=m {
                show_node(rt, &lent, &self.records, v, j)?;
            }
        }
        Ok(())
    }

    // The fit and all states: of every node by the call for one node, of every HTU by the three lists.
    fn show_all(&mut self, rt: &impl Print, n: usize, m: usize) -> io::Result<()> {
        self.show_fit(rt, n, m)?;
        self.show_nodes(rt, n, m)?;
        for v in (1..=last_node(n)).skip(n) {
            print_node(rt, &self.ranges, v, m)?;
        }
        Ok(())
    }

    // A tree: its fit by its branch records, by the tree itself, and with other numbers for its HTUs.
    fn show_tree(&mut self, rt: &impl Print, n: usize, m: usize, tree: &Tree) -> io::Result<()> {
        let lent = self.held.lent(n, m);
        self.records = branches(&lent, *tree, [Branch::default(); BRANCHES]);
        self.show_fit(rt, n, m)?;
        let whole = fit_tree(
            &self.held.lent(n, m),
            tree,
            &mut self.ranges.low,
            &mut self.ranges.high,
            &mut self.ranges.chosen,
        );
        print_total(rt, Ok(whole.total))?;
        print_digests(rt, &self.ranges)?;
        self.records = shuffled(&self.records, n);
        self.show_fit(rt, n, m)
    }

    // Our own tree, as `show_tree` shows it, and the digest of the matrix, or its R line.
    fn show_own(&mut self, rt: &impl Print, n: usize, m: usize) -> io::Result<()> {
        let held = &mut self.held;
        let built = build(&mut held.codes, &held.weights, n, m, Order::Advance);
        print_answer(rt, built, |built| {
            self.show_tree(rt, n, m, &built.tree)?;
            print_digest(rt, &self.held.codes)
        })
    }

    // The digests of the lists of the lowest and the highest states.
    fn show_ends(&self, rt: &impl Print) -> io::Result<()> {
        print_digest(rt, &self.ranges.low)?;
        print_digest(rt, &self.ranges.high)
    }
}

impl Steps for Work {
    fn held(&mut self) -> &mut Held {
        &mut self.held
    }

    fn write(&mut self, word: &str, numbers: &[i32]) {
        if word == "ancestors" {
            self.records = records_of(numbers);
        } else if word == "record" {
            write_record(&mut self.records, counts_of(numbers));
        }
    }

    fn show(&mut self, rt: &impl Print, word: &str, numbers: &[i32]) -> io::Result<()> {
        let counts: [usize; 7] = counts_of(numbers);
        let [n, m, v, j, ..] = counts;
        if word == "fit" {
            self.show_fit(rt, n, m)
        } else if word == "states" {
            self.show_all(rt, n, m)
        } else if word == "node" {
            show_node(rt, &self.held.lent(n, m), &self.records, v, j)
        } else if word == "own" {
            self.show_own(rt, n, m)
        } else if word == "ends" {
            self.show_ends(rt)
        } else if word == "fit_of_sizes" {
            self.show_fit_of(rt, counts)
        } else if word == "others_of_sizes" {
            self.show_others_of(rt, counts)
        } else {
            Ok(())
        }
    }
}
