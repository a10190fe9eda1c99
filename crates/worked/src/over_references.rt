// The forms over references, run: placements on a tree that the caller keeps, the finished tree written into a lent list of branch records,
// and the fit of that list. Nodes are printed by number.
mod calls;

use crate::over_references::calls::{placed_in, written};
use crate::shared::cases::{Steps, counts_of, first, first_mut};
use crate::shared::fit_lines::{print_fit, print_node};
use crate::shared::held::Held;
use crate::shared::lines::print_refusal;
use crate::shared::tree_lines::{print_branch, print_branches, print_placed, print_tree};
use branching::tree::Tree;
use fitting::ranges::Ranges;
use matrix::codes::code_at;
use matrix::lent::Lent;
use matrix::{COLUMNS, MATRIX_SIZE};
use references::lent::fit_lent;
use std::io;
use tree_form::branch::Branch;
use tree_records::branch::BRANCHES;

// Records of other numbers than any that is written here.
const OTHERS: [Branch; BRANCHES] = [Branch {
    node: 200,
    ancestor: 201,
    length: 202,
}; BRANCHES];

// The matrix, the tree, its branch records as they were last written, and the lists that a fit writes; and how many items of the matrix, of
// the weights and of the chosen states are lent.
#[derive(Drop)]
pub(crate) struct Work {
    held: Held,
    tree: Tree,
    records: [Branch; BRANCHES],
    ranges: Ranges,
    sizes: [usize; 3],
}

// The M line of a node: its first three codes.
fn print_row(rt: &impl Print, codes: &[i32; MATRIX_SIZE], v: usize) -> io::Result<()> {
    let first = code_at(codes, v, 1);
    let second = code_at(codes, v, 2);
    let third = code_at(codes, v, 3);
    println!(rt; "M\t{v}\t{first}\t{second}\t{third}")
}

// The B lines of the first six records and of the last one.
fn print_records(rt: &impl Print, records: &[Branch; BRANCHES]) -> io::Result<()> {
    print_branches(rt, &records[..6])?;
    print_branch(rt, records[BRANCHES - 1])
}

// What is lent of a matrix with a call of n taxa and m characters: so many of its codes and weights.
fn lent(held: &Held, sizes: [usize; 3], n: usize, m: usize) -> Lent<'_> {
    let [codes, weights, _] = sizes;
    Lent {
        matrix: first(&held.codes, codes),
        weights: first(&held.weights, weights),
        n,
        m,
    }
}

impl Work {
    // Codes of 0 and weights of 1, row 1 alone in the tree, records and lists that no call has written; all items are lent.
    pub(crate) fn new() -> Work {
        Work {
            held: Held::alike(0),
            tree: Tree::alone(),
            records: OTHERS,
            ranges: Ranges::alike(7, 7, 7),
            sizes: [MATRIX_SIZE, COLUMNS, MATRIX_SIZE],
        }
    }

    // A placement of taxon b on the tree: its line, the tree's lines and the rows of nodes 5 and 6 afterwards.
    fn place(&mut self, rt: &impl Print, n: usize, m: usize, b: usize) -> io::Result<()> {
        let weights = first(&self.held.weights, self.sizes[1]);
        let (tree, placed) = placed_in(self.tree, &mut self.held.codes, weights, n, m, b);
        self.tree = tree;
        print_placed(rt, placed)?;
        print_tree(rt, tree)?;
        print_row(rt, &self.held.codes, 5)?;
        print_row(rt, &self.held.codes, 6)
    }

    // The branch records of a tree written over others: the line of a refusal, and the records' lines.
    fn write_tree(&mut self, rt: &impl Print, n: usize, m: usize, tree: Tree) -> io::Result<()> {
        let (records, asked) = written(&lent(&self.held, self.sizes, n, m), tree, OTHERS);
        self.records = records;
        if let Err(why) = asked {
            print_refusal(rt, why)?;
        }
        print_records(rt, &records)
    }

    // The fit of some records: its lines, and what the three lists then hold for node 5, with a character that the matrix does not have.
    fn fit(&mut self, rt: &impl Print, n: usize, m: usize, records: &[Branch]) -> io::Result<()> {
        let answer = fit_lent(
            &lent(&self.held, self.sizes, n, m),
            records,
            &mut self.ranges.low,
            &mut self.ranges.high,
            first_mut(&mut self.ranges.chosen, self.sizes[2]),
        );
        print_fit(rt, answer, n)?;
        print_node(rt, &self.ranges, 5, 4)
    }
}

impl Steps for Work {
    fn held(&mut self) -> &mut Held {
        &mut self.held
    }

    fn write(&mut self, word: &str, numbers: &[i32]) {
        if word == "begin" {
            *self = Work::new();
        } else if word == "sizes" {
            self.sizes = counts_of(numbers);
        }
    }

    fn show(&mut self, rt: &impl Print, word: &str, numbers: &[i32]) -> io::Result<()> {
        let [n, m, b]: [usize; 3] = counts_of(numbers);
        let records = self.records;
        if word == "place" {
            self.place(rt, n, m, b)
        } else if word == "write" {
            self.write_tree(rt, n, m, self.tree)
        } else if word == "write_alone" {
            self.write_tree(rt, n, m, Tree::alone())
        } else if word == "fit" {
            self.fit(rt, n, m, &records)
        } else if word == "fit_others" {
            self.fit(rt, n, m, &OTHERS)
        } else if word == "node" {
            print_node(rt, &self.ranges, n, 4)
        } else {
            Ok(())
        }
    }
}
