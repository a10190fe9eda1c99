// The code of a node in a character, of a lent matrix or another list of its shape.
ghost use Rattle.std.specs.Prelude.{◌≡◌, ◌+◌, ◌-◌, ◌^◌, min};
ghost use Rattle.matrix_form.specs.Shape.{row_start, state_at};

use crate::COLUMNS;

// Kept: no plainer, `row_start` ends at the list's end, and here an index beyond the list has to stay beyond it.
// The index of node v's code in character j in a list of the matrix's shape, or the last of all numbers where it would lie beyond them.
pub fn index_of_code(v: usize, j: usize) -> usize
    ensures { result ≡ min (row_start v + (j - 1)) (2 ^ 64 - 1) }
{
    let start = v.saturating_sub(1).saturating_mul(COLUMNS);
    start.saturating_add(j.saturating_sub(1))
}

// The code of node v in character j, as far as the matrix goes.
pub fn code_at(matrix: &[i32], v: usize, j: usize) -> i32
    ensures { result ≡ state_at matrix.now v j }
{
    matrix.get(index_of_code(v, j)).copied().unwrap_or(0)
}
