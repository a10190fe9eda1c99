// Lines of trees and branch records, nodes by number.
use crate::shared::lines::print_answer;
use branching::tree::Tree;
use matrix_form::refusal::Refusal;
use std::io;
use tree_form::branch::Branch;
use tree_form::placement::Placement;

// The W line of a placement: taxon, lower end, upper end, HTU, length added.
pub(crate) fn print_placement(rt: &impl Print, placement: Placement) -> io::Result<()> {
    let Placement {
        taxon,
        lower,
        upper,
        htu,
        added,
    } = placement;
    println!(rt; "W\t{taxon}\t{lower}\t{upper}\t{htu}\t{added}")
}

// The W line of a placement, or its R line.
pub(crate) fn print_placed(rt: &impl Print, placed: Result<Placement, Refusal>) -> io::Result<()> {
    print_answer(rt, placed, |placement| print_placement(rt, placement))
}

// Kept: no plainer, 0 stands for no ancestor in the tree's own list.
// The A lines of a tree: each node that has an immediate ancestor, and this one.
pub(crate) fn print_tree(rt: &impl Print, tree: Tree) -> io::Result<()> {
    for (v, above) in tree.list().iter().enumerate() {
        if *above != 0 {
            println!(rt; "A\t{v}\t{above}")?;
        }
    }
    Ok(())
}

// Kept: no plainer, a record of zeros stands for none in a list of records.
// The B line of a branch record: node, immediate ancestor, length. A record of zeros has none.
pub(crate) fn print_branch(rt: &impl Print, branch: Branch) -> io::Result<()> {
    let Branch {
        node,
        ancestor,
        length,
    } = branch;
    if node == 0 {
        return Ok(());
    }
    println!(rt; "B\t{node}\t{ancestor}\t{length}")
}

// The B lines of branch records.
pub(crate) fn print_branches(rt: &impl Print, records: &[Branch]) -> io::Result<()> {
    for branch in records {
        print_branch(rt, *branch)?;
    }
    Ok(())
}
