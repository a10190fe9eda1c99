// What is asked of numbers, codes and nodes. Each answers what its definition in specs/ answers, for every input.
ghost use Rattle.std.specs.Prelude.{◌≡◌, ◌≤◌, ◌-◌, ◌^◌, min};
ghost use Rattle.matrix_form.specs.Shape.{most_taxa, in_range, last_node};
ghost use Rattle.matrix_form.specs.Outcomes.{ask_each};
ghost use Rattle.matrix_form.specs.Questions.{within_limits, one_to, ask_code, nodes_exist};

use crate::{HIGHEST_CODE, LOWEST_CODE, MOST_CHARACTERS, MOST_TAXA};
use matrix_form::refusal::Refusal;

// Whether a code is from -999 to 999.
pub fn in_range(code: i32) -> bool
    ensures { result ≡ in_range code }
{
    (LOWEST_CODE..=HIGHEST_CODE).contains(&code)
}

// Whether an item, counted from 1, is one of `last`.
#[tactic(auto, using(lists::proofs::Between::nat_between), unfolding(matrix_form::specs::Questions::one_to))]
pub fn one_to(last: usize, item: usize) -> bool
    ensures { result ≡ one_to last item }
{
    (1..=last).contains(&item)
}

// Whether n is 1 to 64 and m is 1 to 128.
#[tactic(auto, unfolding(matrix_form::specs::Questions::within_limits))]
pub fn within_limits(n: usize, m: usize) -> bool
    ensures { result ≡ within_limits n m }
{
    one_to(MOST_TAXA, n) && one_to(MOST_CHARACTERS, m)
}

// The question put to one code: is it from -999 to 999?
#[tactic(auto, unfolding(matrix_form::specs::Questions::ask_code))]
pub fn ask_code(code: i32) -> Result<(), Refusal>
    ensures { result ≡ ask_code code }
{
    if !in_range(code) {
        return Err(Refusal::CodeRange);
    }
    Ok(())
}

// The questions put to the codes of a row, code by code.
pub fn ask_codes(codes: &[i32]) -> Result<(), Refusal>
    ensures { result ≡ ask_each ask_code codes.now }
{
    for code in codes {
        ask_code(*code)?;
    }
    Ok(())
}

// The last node: 2n-2, and for n = 1 node 1. Where 2n-2 is past what a number holds, the highest number.
#[tactic(auto, unfolding(matrix_form::specs::Shape::last_node))]
pub fn last_node(n: usize) -> usize
    ensures { result ≡ min (last_node n) (2 ^ 64 - 1) }
{
    n.saturating_sub(1).saturating_mul(2).max(1)
}

// Whether every node of a list exists.
#[tactic(auto, unfolding(matrix_form::specs::Questions::nodes_exist, lists::specs::Tests::every, matrix_form::specs::Shape::last_node))]
pub(crate) fn nodes_exist(n: usize, nodes: &[usize]) -> bool
    requires { n ≤ most_taxa }
    ensures { result ≡ nodes_exist n nodes.now }
{
    let last = last_node(n);
    nodes.iter().all(|v| one_to(last, *v))
}
