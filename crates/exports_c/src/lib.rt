// The calls for other languages, as a static library. Each hands its arguments to the call of the same name in `exports`, and has its contract.
// Kept: interface, C hands over each list and number by itself (matrix, weights, n and m, the three lists of states) and an order as a number.
#![tactic(auto)]

ghost use Rattle.std.specs.Prelude.{◌≡◌};
ghost use Rattle.file_form.specs.Written.{lent};
ghost use Rattle.export_form.specs.Orders.{order_numbered};
ghost use Rattle.export_form.specs.Calls.{ListExported, ReadExported, network_exported, ask_build, BuildExported};
ghost use Rattle.export_form.specs.Calls.{ask_wagner_fit, FitExported, floor_exported, index_exported};
ghost use Rattle.matrix_form.specs.Shape.{matrix_of};

use export_form::answers::{FileRead, Indexed, Listed, Measured};
use exports::calls;

// Writes the listing of a file's bytes, or the line of its refusal, into the front of lent bytes, and answers how many bytes that are, or 12
// if not exactly 1,048,576 are lent, and then nothing is written.
#[unsafe(no_mangle)]
pub extern "C" fn wagner_list(file: &[u8], out: &mut [u8]) -> Listed
    ensures { ListExported file.now out.old out.new result }
{
    calls::wagner_list(file, out)
}

// Reads a file into a lent matrix and lent lists of weights, names and branch records, three numbers for each of 125: the branching of an
// `F` file is handed back with length 0.
#[unsafe(no_mangle)]
pub extern "C" fn wagner_read(
    file: &[u8],
    matrix: &mut [i32],
    weights: &mut [u8],
    names: &mut [u8],
    branches: &mut [usize],
) -> FileRead
    ensures { ReadExported file.now
        (lent matrix.old weights.old names.old branches.old)
        (lent matrix.new weights.new names.new branches.new) result }
{
    calls::wagner_read(file, matrix, weights, names, branches)
}

// The length of the Prim Network of a lent matrix, by the weights of its characters.
#[unsafe(no_mangle)]
pub extern "C" fn wagner_network(matrix: &[i32], weights: &[u8], n: usize, m: usize) -> Measured
    ensures { result ≡ network_exported (matrix_of matrix.now weights.now) n m }
{
    calls::wagner_network(matrix, weights, n, m)
}

// Builds the Wagner tree of a lent matrix by the weights of its characters, in the order of placing with a number, 1 by advancement or 2
// the closest first: the codes of the HTUs are written into their rows, and the length of the tree comes back.
#[unsafe(no_mangle)]
pub extern "C" fn wagner_build(
    matrix: &mut [i32],
    weights: &[u8],
    n: usize,
    m: usize,
    order: u64,
) -> Measured
    ensures { BuildExported (order_numbered order) (ask_build (matrix_of matrix.old weights.now) n m order)
        (matrix_of matrix.old weights.now) matrix.new n m result }
{
    calls::wagner_build(matrix, weights, n, m, order)
}

// Builds the Wagner tree of a lent matrix by the weights of its characters, in the order of placing with a number, and fits it: the codes
// of the HTUs are written into their rows, the lowest, the highest and the chosen state of each HTU in each character into three lists of
// the matrix's shape, and the fitted total comes back.
#[unsafe(no_mangle)]
pub extern "C" fn wagner_fit(
    matrix: &mut [i32],
    weights: &[u8],
    n: usize,
    m: usize,
    order: u64,
    low: &mut [i32],
    high: &mut [i32],
    chosen: &mut [i32],
) -> Measured
    ensures { FitExported (order_numbered order)
        (ask_wagner_fit (matrix_of matrix.old weights.now) n m order low.old high.old chosen.old)
        (matrix_of matrix.old weights.now) matrix.new n m
        low.old low.new high.old high.new chosen.old chosen.new result }
{
    calls::wagner_fit(matrix, weights, n, m, order, low, high, chosen)
}

// The floor of a lent matrix, by the weights of its characters.
#[unsafe(no_mangle)]
pub extern "C" fn wagner_floor(matrix: &[i32], weights: &[u8], n: usize, m: usize) -> Measured
    ensures { result ≡ floor_exported (matrix_of matrix.now weights.now) n m }
{
    calls::wagner_floor(matrix, weights, n, m)
}

// The consistency index of a branching that is lent as 375 numbers, three for each of 125 records: a node, its immediate ancestor, and a
// length, which is not read.
#[unsafe(no_mangle)]
pub extern "C" fn wagner_index(
    matrix: &[i32],
    weights: &[u8],
    n: usize,
    m: usize,
    branches: &[usize],
) -> Indexed
    ensures { result ≡ index_exported (matrix_of matrix.now weights.now) n m branches.now }
{
    calls::wagner_index(matrix, weights, n, m, branches)
}
