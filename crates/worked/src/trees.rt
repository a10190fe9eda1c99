// Wagner trees and placements, with nodes by number.
// Kept: no plainer, rt, n and m go to each function that shows a case: each case has its own n and m, so a struct of the three, generic in rt, would be made at each call.
use crate::shared::cases::{Steps, counts_of};
use crate::shared::digests::print_digest;
use crate::shared::held::Held;
use crate::shared::lines::print_answer;
use crate::shared::tree_lines::{print_branches, print_placed, print_placement, print_tree};
use branching::placement::{NotPlaced, Placed};
use branching::tree::Tree;
use matrix::{COLUMNS, LIGHTEST, MATRIX_SIZE};
use std::io;
use tree_form::branch::Branch;
use tree_form::order::Order;
use tree_records::branch::BRANCHES;
use wagner::answer::WagnerTree;
use wagner::build::build;
use wagner::records::branches;

// The lines of a placement's answer, and the tree that it hands back.
fn handed(rt: &impl Print, answer: Result<Placed, NotPlaced>) -> io::Result<Tree> {
    let tree = match &answer {
        Ok(placed) => placed.tree,
        Err(kept) => kept.tree,
    };
    let placed = answer.map(|placed| placed.placement);
    print_placed(rt, placed.map_err(|kept| kept.refusal))?;
    print_tree(rt, tree)?;
    Ok(tree)
}

// The answers to a build and to a placement on a tree that is none, where so many codes and weights are lent.
fn print_sizes(rt: &impl Print, codes: usize, weights: usize, order: Order) -> io::Result<()> {
    let mut zeros = [0; MATRIX_SIZE];
    let codes = &mut zeros[..codes.min(MATRIX_SIZE)];
    let weights = &[LIGHTEST; COLUMNS + 1][..weights.min(COLUMNS + 1)];
    print_answer(rt, build(codes, weights, 0, 0, order), |_| println!(rt; ""))?;
    let forked = Tree::alone().link(2).link(3);
    handed(rt, forked.place(codes, weights, 3, 1, 9))?;
    Ok(())
}

// The matrix that is held, the order in which its taxa are placed, and a tree.
#[derive(Drop)]
pub(crate) struct Work {
    held: Held,
    order: Order,
    tree: Tree,
}

impl Work {
    // Codes of 0 and weights of 1, taxa by advancement, row 1 alone in the tree.
    pub(crate) fn new() -> Work {
        Work {
            held: Held::alike(0),
            order: Order::Advance,
            tree: Tree::alone(),
        }
    }

    // The lines of a build from n taxa and m characters.
    fn show_build(&mut self, rt: &impl Print, n: usize, m: usize) -> io::Result<()> {
        let built = build(&mut self.held.codes, &self.held.weights, n, m, self.order);
        print_answer(rt, built, |built| self.print_built(rt, &built, n, m))?;
        print_digest(rt, &self.held.codes)
    }

    // The lines of a finished tree: its placements, its length, its branch records.
    fn print_built(
        &self,
        rt: &impl Print,
        built: &WagnerTree,
        n: usize,
        m: usize,
    ) -> io::Result<()> {
        for placement in built.placements.as_slice() {
            print_placement(rt, *placement)?;
        }
        println!(rt; "w\t{}", built.length)?;
        let none = [Branch::default(); BRANCHES];
        print_branches(rt, &branches(&self.held.lent(n, m), built.tree, none))
    }

    // The lines of a placement of taxon b on the tree, which is then the one that is handed back.
    fn place(&mut self, rt: &impl Print, n: usize, m: usize, b: usize) -> io::Result<()> {
        let held = &mut self.held;
        let answer = self.tree.place(&mut held.codes, &held.weights, n, m, b);
        self.tree = handed(rt, answer)?;
        print_digest(rt, &self.held.codes)
    }
}

impl Steps for Work {
    fn held(&mut self) -> &mut Held {
        &mut self.held
    }

    // The order or the tree: `advance` by advancement, `closest` the closest first; `alone` row 1 alone, `link` a taxon linked to it, `hang` a
    // taxon hung on an interval through a node.
    fn write(&mut self, word: &str, numbers: &[i32]) {
        let [b, c, y]: [usize; 3] = counts_of(numbers);
        if word == "advance" {
            self.order = Order::Advance;
        } else if word == "closest" {
            self.order = Order::Closest;
        } else if word == "alone" {
            self.tree = Tree::alone();
        } else if word == "link" {
            self.tree = self.tree.link(b);
        } else if word == "hang" {
            self.tree = self.tree.hang(b, c, y);
        }
    }

    // `show` shows a build of n taxa and m characters, `place` a placement of a taxon on the tree, `sizes` what lists of these sizes bring.
    fn show(&mut self, rt: &impl Print, word: &str, numbers: &[i32]) -> io::Result<()> {
        let [n, m, b]: [usize; 3] = counts_of(numbers);
        if word == "show" {
            self.show_build(rt, n, m)
        } else if word == "place" {
            self.place(rt, n, m, b)
        } else if word == "sizes" {
            print_sizes(rt, n, m, self.order)
        } else {
            Ok(())
        }
    }
}
