// Difference, medians and interval difference of rows of any length.
ghost use Rattle.std.specs.Prelude.{◌≡◌, ◌≤◌, ◌*◌, ◌^◌, length, take};
ghost use Rattle.matrix_form.specs.Shape.{most_characters};
ghost use Rattle.difference.specs.Steps.{DifferenceOf};
ghost use Rattle.lists.specs.Over.{over};
ghost use Rattle.difference_form.specs.Rows.{difference, unweighted, medians, interval_difference};

use crate::codes::{median, part};
use matrix::{LIGHTEST, MOST_CHARACTERS};

// A weight of 1 for each of 128 characters.
static LIGHT: [u8; MOST_CHARACTERS] = [LIGHTEST; MOST_CHARACTERS];

// The difference of two rows of one length, with a weight for each character.
// Kept: no plainer, two rows are no pairs until they are gone through.
fn weighed(weights: &[u8], xs: &[i32], ys: &[i32]) -> u64
    requires { (length xs.now ≤ most_characters) × (length xs.now ≤ length weights.now) }
    ensures is { result ≡ difference weights.now xs.now ys.now }
    ensures most { result ≤ length xs.now * 2 ^ 40 }
{
    xs.iter()
        .zip(ys.iter())
        .zip(weights.iter())
        .map(|((x, y), weight)| part(*weight, *x, *y))
        .sum()
}

// The difference of two rows by the weights of the characters, over their first 128 characters; a character without a weight weighs 1.
// Cut to one length, the two rows and their weights are gone through without a test in each turn; behind the last weight come ones.
// Kept: slower, a chain over `zip`, `take` and `enumerate` with the weight looked up takes 546 ms where this takes 146 (2 million times 100 codes), 3.7 times, where 1.3 is allowed.
pub fn difference(weights: &[u8], xs: &[i32], ys: &[i32]) -> u64
    ensures { DifferenceOf weights.now xs.now ys.now result }
{
    let count = xs.len().min(ys.len()).min(MOST_CHARACTERS);
    let known = weights.len().min(count);
    weighed(&weights[..known], &xs[..known], &ys[..known])
        + weighed(
            &LIGHT[..count - known],
            &xs[known..count],
            &ys[known..count],
        )
}

// Kept: no plainer, as `weighed`.
// The interval difference of b from the interval between c and d, over their first 128 characters.
#[tactic(auto, unfolding(difference_form::specs::Rows::interval_by))]
pub fn interval_difference(weights: &[u8], b: &[i32], c: &[i32], d: &[i32]) -> u64
    ensures { result ≡ interval_difference weights.now (take most_characters b.now)
        (take most_characters c.now) (take most_characters d.now) }
{
    let ends = difference(weights, b, c) + difference(weights, b, d);
    let across = difference(weights, c, d);
    ends.saturating_sub(across) / 2
}

// Kept: no plainer, as `weighed`.
// Writes the medians of three rows over the front of a list, as far as all four go.
pub fn write_medians(out: &mut [i32], xs: &[i32], ys: &[i32], zs: &[i32])
    ensures { out.new ≡ over 0 (medians xs.now ys.now zs.now) out.old }
{
    let count = out.len().min(xs.len()).min(ys.len()).min(zs.len());
    // Kept: no plainer, `iter_mut().enumerate()` would still read three lists by the index.
    for j in 0..count {
        out[j] = median(xs[j], ys[j], zs[j]);
    }
}
