// Sets of states: closed intervals of whole numbers, for every i32.
// Kept: no plainer, the definitions are operations on two sets and have these names, which contracts cite: a method would have one set before the other.
ghost use Rattle.std.specs.Prelude.{◌≡◌, ◌<◌};
ghost use Rattle.matrix_form.specs.Spans.{only};
ghost use Rattle.fit_form.specs.Sets.{join, nearest_member, middle};
ghost use Rattle.fit_sets.specs.Steps.{nearest_members, Carried, GapOf};

use difference::codes::{apart, higher, lower};
use filled::Filled;
use matrix_form::spans::Span;

// Three sets have six ends.
const ENDS: usize = 6;

// The set of one state alone.
#[tactic(auto, using(crate::proofs::Codes::by_bits), unfolding(matrix_form::specs::Spans::only))]
pub fn only(state: i32) -> Span
    ensures { result ≡ only state }
{
    Span {
        low: state,
        high: state,
    }
}

// The join of two sets: their intersection, or, if that is empty, the smallest interval that touches both.
#[tactic(auto, using(crate::proofs::Codes::by_bits), unfolding(fit_form::specs::Sets::join))]
pub fn join(a: Span, b: Span) -> Span
    ensures { result ≡ join a b }
{
    let start = higher(a.low, b.low);
    let end = lower(a.high, b.high);
    Span {
        low: lower(start, end),
        high: higher(start, end),
    }
}

// The member of a set nearest to a state.
#[tactic(auto, using(crate::proofs::Codes::by_bits), unfolding(fit_form::specs::Sets::nearest_member))]
pub fn nearest_member(state: i32, a: Span) -> i32
    ensures { result ≡ nearest_member state a }
{
    higher(a.low, lower(state, a.high))
}

// The members of a set that are nearest to another one, by its two ends.
pub fn nearest_members(other: Span, a: Span) -> Span
    ensures { result ≡ nearest_members other a }
{
    Span {
        low: nearest_member(other.low, a),
        high: nearest_member(other.high, a),
    }
}

// How far two sets lie from each other; 0 if they meet.
#[tactic(auto, using(crate::proofs::Codes::by_bits), unfolding(fit_form::specs::Sets::gap))]
pub fn gap(a: Span, b: Span) -> u64
    ensures { GapOf a b result }
{
    let start = higher(a.low, b.low);
    let end = lower(a.high, b.high);
    apart(start, lower(start, end))
}

// A state carried through states in rising order: each entry keeps the lower, and the higher goes on, at last behind them.
fn carry(sorted: Filled<i32, ENDS>, state: i32) -> Filled<i32, ENDS>
    requires { sorted.count < 6 }
    ensures { Carried sorted state result }
{
    // Kept: unproved, with a loop over `&mut sorted.items[..sorted.count]` the check leaves the items behind it open: it knows them no more. Apart they are known.
    let Filled { mut items, count } = sorted;
    let mut on = state;
    for here in &mut items[..count] {
        let old = *here;
        *here = lower(on, old);
        on = higher(on, old);
    }
    let mut sorted = Filled { items, count };
    sorted.push(on);
    sorted
}

// The third to the fourth of the six ends of three sets, in order.
pub fn middle(a: Span, b: Span, c: Span) -> Span
    ensures { result ≡ middle a b c }
{
    // Kept: slower, `sort_unstable` takes 426 ms where this takes 227 (20 million times): reckoned, 1.29 and 1.39 of plain loops for a fit, where 1.3 is the bar (docs/MEASURED.md).
    let mut sorted = Filled::none(0);
    sorted = carry(sorted, c.high);
    sorted = carry(sorted, c.low);
    sorted = carry(sorted, b.high);
    sorted = carry(sorted, b.low);
    sorted = carry(sorted, a.high);
    sorted = carry(sorted, a.low);
    Span {
        low: sorted.items[2],
        high: sorted.items[3],
    }
}
