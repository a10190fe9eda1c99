// The absolute difference of two codes and the median of three, for every i32.
ghost use Rattle.std.specs.Prelude.{◌≡◌, ◌≤◌, ◌^◌};
ghost use Rattle.difference_form.specs.Rows.{apart, part, lower, higher, median};

// The absolute difference of two codes.
#[tactic(auto, unfolding(difference_form::specs::Rows::apart))]
pub fn apart(a: i32, b: i32) -> u64
    ensures { result ≡ apart a b }
{
    u64::from(a.abs_diff(b))
}

// The part of one character: its weight times the absolute difference of two codes, at most 2 ^ 8 times 2 ^ 32.
pub fn part(weight: u8, a: i32, b: i32) -> u64
    ensures is { result ≡ part weight a b }
    ensures most { result ≤ 2 ^ 40 }
{
    u64::from(weight) * apart(a, b)
}

// Kept: no plainer, floors and ranges promise by the definition `lower`, which a call of std's min would have to be shown to be each time.
// The lower of two codes.
#[tactic(auto, using(difference_form::proofs::Laws::Codes::int_min_lower))]
pub fn lower(a: i32, b: i32) -> i32
    ensures { result ≡ lower a b }
{
    a.min(b)
}

// Kept: no plainer, as `lower`.
// The higher of two codes.
#[tactic(auto, using(difference_form::proofs::Laws::Codes::int_max_higher))]
pub fn higher(a: i32, b: i32) -> i32
    ensures { result ≡ higher a b }
{
    a.max(b)
}

// The middle one of three codes.
#[tactic(auto, unfolding(difference_form::specs::Rows::median))]
pub fn median(a: i32, b: i32, c: i32) -> i32
    ensures { result ≡ median a b c }
{
    higher(lower(a, b), lower(higher(a, b), c))
}
