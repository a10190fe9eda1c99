// The states of the HTUs in lists of the matrix's shape, as a fit writes them.
ghost use Rattle.std.specs.Prelude.{◌≡◌, replicate};
ghost use Rattle.matrix_form.specs.Shape.{matrix_size, state_at};

use fit_form::characters::States;
use matrix::MATRIX_SIZE;
use matrix::codes::code_at;

// The lists of the lowest, the highest and the chosen states.
// Kept: interface, `fit_tree` writes three lists, since `wagner_fit` takes three; an array of structs would be filled from them anew.
#[derive(Drop)]
pub struct Ranges {
    pub low: [i32; MATRIX_SIZE],
    pub high: [i32; MATRIX_SIZE],
    pub chosen: [i32; MATRIX_SIZE],
}

impl Ranges {
    // Lists of which each holds one number throughout.
    pub fn alike(low: i32, high: i32, chosen: i32) -> Ranges
        ensures { result ≡ record { low = replicate matrix_size low; high = replicate matrix_size high; chosen = replicate matrix_size chosen } }
    {
        Ranges {
            low: [low; MATRIX_SIZE],
            high: [high; MATRIX_SIZE],
            chosen: [chosen; MATRIX_SIZE],
        }
    }

    // The states of node v in character j.
    pub fn states(&self, v: usize, j: usize) -> States
        ensures { result ≡ record { low = state_at self.now.low v j; high = state_at self.now.high v j; chosen = state_at self.now.chosen v j } }
    {
        States {
            low: code_at(&self.low, v, j),
            high: code_at(&self.high, v, j),
            chosen: code_at(&self.chosen, v, j),
        }
    }
}
