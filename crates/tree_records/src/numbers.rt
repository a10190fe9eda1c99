// A lent branching as a list of numbers, three for each branch record.
ghost use Rattle.std.specs.Prelude.{◌≡◌, ◌<◌, get_or};
ghost use Rattle.tree_form.specs.Asking.{branches_size};
ghost use Rattle.tree_form.specs.LentNumbers.{record_at, records_in};

use crate::branch::BRANCHES;
use std::array;
use tree_form::branch::Branch;

// A branch record is three numbers: a node, its immediate ancestor, and a length.
pub const RECORD: usize = 3;

// A lent branching is 125 records.
pub const LENT_NUMBERS: usize = RECORD * BRANCHES;

// The number at an index of a list, or 0 behind its end.
#[tactic(auto, using(std::proofs::lemmas::Option::gets))]
fn number_at(numbers: &[usize], i: usize) -> usize
    ensures { result ≡ get_or numbers.now i 0 }
{
    numbers.get(i).copied().unwrap_or(0)
}

// The record at an index, the first at index 0; its length is not read.
// Kept: no plainer, of a list that is too short each number behind its end is read as 0, where `chunks` would end.
#[tactic(auto, unfolding(tree_form::specs::LentNumbers::record_at))]
fn record_at(numbers: &[usize], place: usize) -> Branch
    requires { place < branches_size }
    ensures { result ≡ record_at numbers.now place }
{
    let start = RECORD * place;
    Branch {
        node: number_at(numbers, start),
        ancestor: number_at(numbers, start + 1),
        length: 0,
    }
}

// All records.
pub fn records_in(numbers: &[usize]) -> [Branch; BRANCHES]
    ensures { result ≡ records_in numbers.now }
{
    array::from_fn(|place| record_at(numbers, place))
}
