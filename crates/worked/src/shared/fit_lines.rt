// What the calls for a fit write and hand back, as lines: T, t and H lines, or the R line of a refusal.
use crate::shared::digests::print_digest;
use crate::shared::lines::print_answer;
use fit_form::characters::States;
use fit_form::whole::{BranchFit, Fit};
use fitting::ranges::Ranges;
use matrix::questions::last_node;
use matrix_form::refusal::Refusal;
use std::io;

// The H line of node v in character j.
pub(crate) fn print_states(rt: &impl Print, v: usize, j: usize, states: States) -> io::Result<()> {
    let States { low, high, chosen } = states;
    println!(rt; "H\t{v}\t{j}\t{low}\t{high}\t{chosen}")
}

// The H lines of node v in characters 1 to m by what three lists hold.
pub(crate) fn print_node(rt: &impl Print, ranges: &Ranges, v: usize, m: usize) -> io::Result<()> {
    for j in 1..=m {
        print_states(rt, v, j, ranges.states(v, j))?;
    }
    Ok(())
}

// The digests of three lists.
pub(crate) fn print_digests(rt: &impl Print, ranges: &Ranges) -> io::Result<()> {
    print_digest(rt, &ranges.low)?;
    print_digest(rt, &ranges.high)?;
    print_digest(rt, &ranges.chosen)
}

// The t line of a fitted total, or its R line.
pub(crate) fn print_total(rt: &impl Print, total: Result<u64, Refusal>) -> io::Result<()> {
    print_answer(rt, total, |sum| println!(rt; "t\t{sum}"))
}

// The T line of node v's branch: its fitted length and its mark.
fn print_fitted(rt: &impl Print, v: usize, branch: BranchFit) -> io::Result<()> {
    let mark = if branch.mark { '+' } else { '-' };
    println!(rt; "T\t{v}\t{}\t{mark}", branch.length)
}

// The T lines of nodes 2 to 2n-2.
fn print_lengths(rt: &impl Print, fit: &Fit, n: usize) -> io::Result<()> {
    for (v, branch) in (2..=last_node(n)).zip(&fit.branches[2..]) {
        print_fitted(rt, v, *branch)?;
    }
    Ok(())
}

// The T lines and the t line of a fit of n taxa, or its R line.
pub(crate) fn print_fit(rt: &impl Print, fit: Result<Fit, Refusal>, n: usize) -> io::Result<()> {
    print_answer(rt, fit, |fit| {
        print_lengths(rt, &fit, n)?;
        print_total(rt, Ok(fit.total))
    })
}
