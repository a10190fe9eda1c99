// The rows of a lent matrix.
ghost use Rattle.std.specs.Prelude.{◌≡◌, min};
ghost use Rattle.matrix_form.specs.Shape.{row_start, row};
ghost use Rattle.matrix_form.specs.NodeRows.{with_row};

use crate::COLUMNS;

// Where the row of node v begins, or the end of the list where it has no such row.
pub fn row_start(len: usize, v: usize) -> usize
    ensures { result ≡ min len (row_start v) }
{
    len.min(v.saturating_sub(1).saturating_mul(COLUMNS))
}

// The row of node v: its codes for characters 1 to m, as far as the list goes.
// Kept: no plainer, `chunks` parts the list into rows of 128, and m can be more: the codes then go on in the next row.
#[tactic(auto, using(matrix_form::proofs::Row::row_part))]
pub fn row(matrix: &[i32], m: usize, v: usize) -> &[i32]
    ensures { result.now ≡ row matrix.now m v }
{
    let (_, rest) = matrix.split_at(row_start(matrix.len(), v));
    &rest[..m.min(rest.len())]
}

// Writes a row over the first codes of the row of node v, as far as the list goes.
// Kept: no plainer, `chunks_mut` would end with the row, and a row of more than 128 codes goes on in the next.
pub fn write_row(matrix: &mut [i32], v: usize, row: &[i32])
    ensures { matrix.new ≡ with_row matrix.old v row.now }
{
    let len = matrix.len();
    let start = row_start(len, v);
    let count = (len - start).min(row.len());
    matrix[start..start + count].copy_from_slice(&row[..count]);
}
