// The passes over a branching in one character: sets and least costs from the tips up; chosen states and what is outside from row 1 down;
// ranges from both.
// Kept: no plainer, the plan serves all characters, and each has sets of its own: a struct of both would be made anew for each, to be taken apart in four passes.
ghost use Rattle.std.specs.Prelude.{◌≡◌};
ghost use Rattle.fit_passes.specs.Steps.{taxon_span, Column, PartOf, PartsUp, LeastCost};
ghost use Rattle.fit_passes.specs.Steps.{row1_seen, outside_from, SeenDown, range_from, states_from, states_up_to, Fits};

use crate::planning::{Plan, sister};
use branching::tree::tree_index;
use fit_form::characters::States;
use fit_sets::spans::{gap, join, middle, nearest_member, nearest_members, only};
use matrix::codes::code_at;
use matrix::questions::last_node;
use matrix_form::spans::Span;
use std::array;
use tree_form::tree::TREE_SIZE;

// What is found of a node from the tips up: its set, and the least cost of its clade.
#[derive(Clone, Copy, Default)]
pub struct Part {
    pub set: Span,
    pub cost: u64,
}

// What is found of a node from row 1 down: its chosen state, and the set of all nodes that are not in its clade; of row 1 the set of the
// clade below it.
#[derive(Clone, Copy, Default)]
pub struct Seen {
    pub state: i32,
    pub outside: Span,
}

// Kept: no plainer, the states of lists of the same shape are read by `code_at` as well, and the plan says how many taxa there are.
// The states of node v in character j if it is one of n taxa: its code alone; the row of an HTU is not read.
fn taxon_span(matrix: &[i32], n: usize, v: usize, j: usize) -> Option<Span>
    ensures { result ≡ taxon_span matrix.now n v j }
{
    (v <= n).then(|| only(code_at(matrix, v, j)))
}

// The own sets of the n taxa in character j; that of taxon v stands at index v.
pub fn own_sets(matrix: &[i32], n: usize, j: usize) -> [Option<Span>; TREE_SIZE]
    ensures { Column matrix.now n j result }
{
    array::from_fn(|v| taxon_span(matrix, n, v, j))
}

// What is found of a node from the tips up: of a taxon from its own set, of an HTU, which has none, from its two descendants.
fn part_of(own: Option<Span>, a: Part, b: Part) -> Part
    ensures { PartOf own a b result }
{
    match own {
        Some(set) => Part { set, cost: 0 },
        None => Part {
            set: join(a.set, b.set),
            cost: gap(a.set, b.set).wrapping_add(a.cost.wrapping_add(b.cost)),
        },
    }
}

// The pass up: against the walk, so that both descendants of an HTU come before it.
#[tactic(auto, unfolding(tree_walk::specs::Walks::node_at))]
fn parts_up(own: &[Option<Span>; TREE_SIZE], plan: &Plan) -> [Part; TREE_SIZE]
    ensures { PartsUp plan.now.taxa plan.now.tree own.now result }
{
    let mut parts = [Part::default(); TREE_SIZE];
    for v in plan.walk.as_slice().iter().rev() {
        let pair = plan.below[*v];
        parts[*v] = part_of(own[*v], parts[pair.first], parts[pair.second]);
    }
    parts
}

// The least cost of a character, from the pass up alone: that of the clade below row 1, and how far row 1's own set lies from its set.
pub fn least_cost(own: &[Option<Span>; TREE_SIZE], plan: &Plan) -> u64
    ensures { LeastCost plan.now.taxa plan.now.tree own.now result }
{
    if plan.n < 2 {
        return 0;
    }
    let parts = parts_up(own, plan);
    let part = parts[plan.below[1].first];
    part.cost.wrapping_add(gap(part.set, parts[1].set))
}

// What is found of row 1, which has no ancestor: its lowest state among those nearest to the set of the clade below it.
fn row1_seen(own: Span, below: Span) -> Seen
    ensures { result ≡ row1_seen own below }
{
    Seen {
        state: nearest_members(below, own).low,
        outside: below,
    }
}

// What is outside of a node's clade: the own set of the node above if that is a taxon, which is row 1; else the join of its sister's set
// and what is outside of its ancestor's clade.
fn outside_of(above: Option<Span>, beside: Span, outside: Span) -> Span
    ensures { result ≡ outside_from above beside outside }
{
    match above {
        Some(row1) => row1,
        None => join(beside, outside),
    }
}

// The pass down: row 1, and then along the walk, so that the ancestor of each node comes before it. Below a taxon that is the only one hangs
// no clade: its own set stands for that.
#[tactic(auto, unfolding(tree_walk::specs::Walks::node_at))]
fn seen_down(
    own: &[Option<Span>; TREE_SIZE],
    plan: &Plan,
    parts: &[Part; TREE_SIZE],
) -> [Seen; TREE_SIZE]
    ensures { SeenDown plan.now.taxa plan.now.tree own.now parts.now result }
{
    let mut seen = [Seen::default(); TREE_SIZE];
    let below = parts[plan.below[1].first.max(1)];
    seen[1] = row1_seen(parts[1].set, below.set);
    // Kept: unproved, of a slice of the nodes behind the first the check leaves open that each is an index of these lists.
    for i in 1..plan.walk.count {
        let v = plan.walk.items[i];
        let u = tree_index(plan.tree.ancestor(v));
        let above = seen[u];
        let beside = parts[sister(plan.below[u], v)];
        seen[v] = Seen {
            state: nearest_member(above.state, parts[v].set),
            outside: outside_of(own[u], beside.set, above.outside),
        };
    }
    seen
}

// The range of a node: of a taxon the members of its own set that are nearest to what is outside; of an HTU, which has none, the middle of
// the sets of its descendants and of what is outside.
fn range_of(own: Option<Span>, a: Span, b: Span, outside: Span) -> Span
    ensures { result ≡ range_from own a b outside }
{
    match own {
        Some(own) => nearest_members(outside, own),
        None => middle(a, b, outside),
    }
}

// The states of a node: its range, and the chosen state.
fn states_of(own: Option<Span>, a: Part, b: Part, seen: Seen) -> States
    ensures { result ≡ states_from own a b seen }
{
    let range = range_of(own, a.set, b.set, seen.outside);
    States {
        low: range.low,
        high: range.high,
        chosen: seen.state,
    }
}

// The states of node v, if it is none behind the last one: there nothing is sought, so that few taxa take little time.
fn states_up_to(last: usize, v: usize, own: Option<Span>, a: Part, b: Part, seen: Seen) -> States
    ensures { result ≡ states_up_to last v own a b seen }
{
    if last < v {
        return States::default();
    }
    states_of(own, a, b, seen)
}

// The fit of one character: the states of each node.
pub fn fit_character(own: &[Option<Span>; TREE_SIZE], plan: &Plan) -> [States; TREE_SIZE]
    ensures { Fits plan.now.taxa plan.now.tree own.now result }
{
    let parts = parts_up(own, plan);
    let seen = seen_down(own, plan, &parts);
    let below = &plan.below;
    let last = last_node(plan.n);
    array::from_fn(|v| {
        let pair = below[v];
        states_up_to(
            last,
            v,
            own[v],
            parts[pair.first],
            parts[pair.second],
            seen[v],
        )
    })
}
