// The calls that `exports_c` exports.
// Kept: interface, C hands over each list and number by itself (matrix, weights, n and m, the three lists of states) and an order as a number.
ghost use Rattle.std.specs.Prelude.{◌≡◌};
ghost use Rattle.matrix_form.specs.Outcomes.{result_says};
ghost use Rattle.file_form.specs.Written.{lent};
ghost use Rattle.export_form.specs.Orders.{order_numbered};
ghost use Rattle.export_form.specs.Answers.{measured, indexed};
ghost use Rattle.export_form.specs.Calls.{ListExported, ReadExported, network_exported, ask_build, BuildExported};
ghost use Rattle.export_form.specs.Calls.{ask_wagner_fit, FitExported, floor_exported, index_exported};
ghost use Rattle.matrix_form.specs.Shape.{matrix_of};
ghost use Rattle.matrix.specs.Lent.{lent_lists};

use crate::answers::{file_read, indexed, listed, measured};
use crate::orders::order_asked;
use consistency::calls::{floor, index};
use consistency_form::index::Index;
use export_form::answers::{FileRead, Indexed, Listed, Measured};
use fitting::whole::{fit_tree, lists_full};
use listing::call::list;
use matrix::lent::Lent;
use matrix_file::reading::read;
use matrix_form::refusal::Refusal;
use prim::network::network;
use tree_records::numbers::{LENT_NUMBERS, records_in};
use wagner::build::build;

// Writes the listing of a file's bytes, or the line of its refusal, into the front of lent bytes, and answers how many bytes that are, or 12
// if not exactly 1,048,576 are lent, and then nothing is written.
pub fn wagner_list(file: &[u8], out: &mut [u8]) -> Listed
    ensures { ListExported file.now out.old out.new result }
{
    listed(list(file, out))
}

// Reads a file into a lent matrix and lent lists of weights, names and branch records, three numbers for each of 125: the branching of an
// `F` file is handed back with length 0.
pub fn wagner_read(
    file: &[u8],
    matrix: &mut [i32],
    weights: &mut [u8],
    names: &mut [u8],
    branches: &mut [usize],
) -> FileRead
    ensures { ReadExported file.now
        (lent matrix.old weights.old names.old branches.old)
        (lent matrix.new weights.new names.new branches.new) result }
{
    file_read(read(file, matrix, weights, names, branches))
}

// The length of the Prim Network of a lent matrix, by the weights of its characters.
#[tactic(auto, unfolding(export_form::specs::Calls::network_exported))]
pub fn wagner_network(matrix: &[i32], weights: &[u8], n: usize, m: usize) -> Measured
    ensures { result ≡ network_exported (matrix_of matrix.now weights.now) n m }
{
    let lent = Lent {
        matrix,
        weights,
        n,
        m,
    };
    measured(network(&lent).map(|links| links.total))
}

// The length of the Wagner tree of a lent matrix, in the order of placing with a number, and the codes of its HTUs in their rows.
// Kept: no plainer, it takes what the call of C below is handed, which hands it on whole.
#[tactic(auto, unfolding(export_form::specs::Calls::ask_build))]
fn built_length(
    matrix: &mut [i32],
    weights: &[u8],
    n: usize,
    m: usize,
    number: u64,
) -> Result<u64, Refusal>
    ensures { BuildExported (order_numbered number) (ask_build (matrix_of matrix.old weights.now) n m number)
        (matrix_of matrix.old weights.now) matrix.new n m (measured (result_says result)) }
{
    let order = order_asked(matrix, weights, number)?;
    let built = build(matrix, weights, n, m, order)?;
    Ok(built.length)
}

// Builds the Wagner tree of a lent matrix by the weights of its characters, in the order of placing with a number, 1 by advancement or 2
// the closest first: the codes of the HTUs are written into their rows, and the length of the tree comes back.
pub fn wagner_build(matrix: &mut [i32], weights: &[u8], n: usize, m: usize, order: u64) -> Measured
    ensures { BuildExported (order_numbered order) (ask_build (matrix_of matrix.old weights.now) n m order)
        (matrix_of matrix.old weights.now) matrix.new n m result }
{
    measured(built_length(matrix, weights, n, m, order))
}

// The fitted total of the Wagner tree of a lent matrix, in the order of placing with a number, with the codes of the HTUs in their rows and
// their states in three lists.
// Kept: no plainer, it takes what the call of C below is handed, which hands it on whole.
#[tactic(auto, unfolding(export_form::specs::Calls::ask_wagner_fit, export_form::specs::Orders::ask_fit_order))]
fn fitted_total(
    matrix: &mut [i32],
    weights: &[u8],
    n: usize,
    m: usize,
    number: u64,
    low: &mut [i32],
    high: &mut [i32],
    chosen: &mut [i32],
) -> Result<u64, Refusal>
    ensures { FitExported (order_numbered number)
        (ask_wagner_fit (matrix_of matrix.old weights.now) n m number low.old high.old chosen.old)
        (matrix_of matrix.old weights.now) matrix.new n m
        low.old low.new high.old high.new chosen.old chosen.new (measured (result_says result)) }
{
    if !lists_full(low.len(), high.len(), chosen.len()) {
        return Err(Refusal::ListSize);
    }
    let order = order_asked(matrix, weights, number)?;
    let built = build(matrix, weights, n, m, order)?;
    let lent = Lent {
        matrix,
        weights,
        n,
        m,
    };
    let fit = fit_tree(&lent, &built.tree, low, high, chosen);
    Ok(fit.total)
}

// Builds the Wagner tree of a lent matrix by the weights of its characters, in the order of placing with a number, and fits it: the codes
// of the HTUs are written into their rows, the lowest, the highest and the chosen state of each HTU in each character into three lists of
// the matrix's shape, and the fitted total comes back.
pub fn wagner_fit(
    matrix: &mut [i32],
    weights: &[u8],
    n: usize,
    m: usize,
    order: u64,
    low: &mut [i32],
    high: &mut [i32],
    chosen: &mut [i32],
) -> Measured
    ensures { FitExported (order_numbered order)
        (ask_wagner_fit (matrix_of matrix.old weights.now) n m order low.old high.old chosen.old)
        (matrix_of matrix.old weights.now) matrix.new n m
        low.old low.new high.old high.new chosen.old chosen.new result }
{
    measured(fitted_total(matrix, weights, n, m, order, low, high, chosen))
}

// The floor of a lent matrix, by the weights of its characters.
#[tactic(auto, unfolding(export_form::specs::Calls::floor_exported))]
pub fn wagner_floor(matrix: &[i32], weights: &[u8], n: usize, m: usize) -> Measured
    ensures { result ≡ floor_exported (matrix_of matrix.now weights.now) n m }
{
    let lent = Lent {
        matrix,
        weights,
        n,
        m,
    };
    measured(floor(&lent))
}

// The index of a branching that is lent as 375 numbers.
#[tactic(auto, unfolding(export_form::specs::Calls::index_exported))]
fn lent_index(lent: &Lent, branches: &[usize]) -> Result<Option<Index>, Refusal>
    ensures { indexed (result_says result) ≡ index_exported (lent_lists lent.now) lent.now.n lent.now.m branches.now }
{
    if branches.len() != LENT_NUMBERS {
        return Err(Refusal::ListSize);
    }
    index(lent, &records_in(branches))
}

// The consistency index of a branching that is lent as 375 numbers, three for each of 125 records: a node, its immediate ancestor, and a
// length, which is not read.
pub fn wagner_index(
    matrix: &[i32],
    weights: &[u8],
    n: usize,
    m: usize,
    branches: &[usize],
) -> Indexed
    ensures { result ≡ index_exported (matrix_of matrix.now weights.now) n m branches.now }
{
    let lent = Lent {
        matrix,
        weights,
        n,
        m,
    };
    indexed(lent_index(&lent, branches))
}
