// What the exported calls hand back: the number of the refusal, or 0, and what was asked for.

// What the call for a listing answers: 0 and how many bytes it wrote; or the number of the refusal and 0.
// Kept: interface, C reads a refusal as a number, and 0 for none.
#[repr(C)]
#[derive(Clone, Copy)]
pub struct Listed {
    pub refusal: u64,
    pub length: usize,
}

// What a read answers: 0, the line 0, the number of the kind of file, the numbers of taxa and characters, and the number of the order of
// placing that a `W` file means, 0 for an `F` file; or the number of the refusal, its line, and zeros.
// Kept: interface, C reads a refusal, a kind and an order as numbers.
#[repr(C)]
#[derive(Clone, Copy, Default)]
pub struct FileRead {
    pub refusal: u64,
    pub line: usize,
    pub kind: u64,
    pub n: usize,
    pub m: usize,
    pub order: u64,
}

// What a call on a lent matrix answers: 0 and a length, or the floor; or the number of the refusal and 0.
// Kept: interface, C reads a refusal as a number, and 0 for none.
#[repr(C)]
#[derive(Clone, Copy)]
pub struct Measured {
    pub refusal: u64,
    pub length: u64,
}

// What the call for an index answers: refusal 0, divided 1, quotient and remainder; four zeros for a total of 0; or the number of the refusal
// and zeros.
// Kept: interface, C has no `Option`: `divided` tells an index from none, by 1 and 0.
#[repr(C)]
#[derive(Clone, Copy, Default)]
pub struct Indexed {
    pub refusal: u64,
    pub divided: u64,
    pub quotient: u64,
    pub remainder: u64,
}
