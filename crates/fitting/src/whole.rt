// The fit of a whole matrix to a tree: the states of its HTUs written into lent lists, branch lengths, marks and the total.
ghost use Rattle.std.specs.Prelude.{◌≡◌, ◌≤◌, length};
ghost use Rattle.matrix_form.specs.Shape.{matrix_size};
ghost use Rattle.branching.specs.Views.{ancestors};
ghost use Rattle.fit_passes.specs.Steps.{states_at};
ghost use Rattle.fitting.specs.Lists.{Picks, with_column, Longer, Lengthened, SumOf, Written};
ghost use Rattle.fit_form.specs.Calls.{Which, state_in, lists_full};
ghost use Rattle.fitting.specs.Lists.{no_fit, TreeFitted, StatesOf};
ghost use Rattle.matrix.specs.Lent.{lent_lists};

use branching::tree::{Tree, tree_index};
use difference::codes::part;
use difference::nodes::Nodes;
use fit_form::characters::States;
use fit_form::whole::{BranchFit, Fit};
use fit_passes::characters::{fit_character, own_sets};
use fit_passes::planning::Plan;
use matrix::MATRIX_SIZE;
use matrix::codes::index_of_code;
use matrix::lent::Lent;
use matrix::questions::{last_node, one_to};
use matrix::weights::weight_at;
use tree_form::tree::TREE_SIZE;

// Writes one of the states of each HTU into column j of its row.
#[tactic(auto, unfolding(matrix_form::specs::Shape::last_node))]
fn write_column<F: Fn(States) -> i32>(
    out: &mut [i32],
    plan: &Plan,
    j: usize,
    states: &[States; TREE_SIZE],
    state: F,
)
    requires callable { F.IsAlwaysCallable state }
    requires shape { (length out.old ≡ matrix_size) × (1 ≤ plan.now.taxa) × (plan.now.taxa ≤ 64) × (1 ≤ j) × (j ≤ 128) }
    ensures { (which : Which) → Picks (F.post state) which
        → out.new ≡ with_column plan.now.taxa j (λ v. state_in which (states_at states.now v)) out.old }
{
    let n = plan.taxa();
    for v in n + 1..last_node(n) + 1 {
        out[index_of_code(v, j)] = state(states[v]);
    }
}

// A branch with one character more, of this weight, by the states at its ends: it is marked where the chosen ones differ.
fn lengthened(branch: BranchFit, weight: u8, own: States, above: States) -> BranchFit
    ensures { Longer weight own above branch result }
{
    BranchFit {
        length: branch
            .length
            .wrapping_add(part(weight, own.chosen, above.chosen)),
        mark: branch.mark | (own.chosen != above.chosen),
    }
}

// Adds one character more, of this weight, to the branches of a tree.
// Kept: no plainer, a node's number is read for its ancestor and its states as well as for its branch.
#[tactic(auto, unfolding(matrix_form::specs::Shape::last_node))]
fn add_lengths(
    branches: &mut [BranchFit; TREE_SIZE],
    plan: &Plan,
    weight: u8,
    states: &[States; TREE_SIZE],
)
    requires { plan.now.taxa ≤ 64 }
    ensures { Lengthened weight plan.now.taxa plan.now.tree states.now branches.old branches.new }
{
    for v in 2..last_node(plan.taxa()) + 1 {
        let u = tree_index(plan.ancestor(v));
        branches[v] = lengthened(branches[v], weight, states[v], states[u]);
    }
}

// The lengths of the branches together.
#[tactic(auto, unfolding(matrix_form::specs::Shape::last_node))]
fn sum_lengths(branches: &[BranchFit; TREE_SIZE], plan: &Plan) -> u64
    requires { plan.now.taxa ≤ 64 }
    ensures { SumOf plan.now.taxa branches.now result }
{
    branches[2..last_node(plan.taxa()) + 1]
        .iter()
        .fold(0, |sum, branch| sum.wrapping_add(branch.length))
}

// Fits character after character: writes the states of the HTUs, and gives the branches with their lengths and marks.
// Kept: no plainer, each promise of a struct of lists to be written would have to say that it lends the same ones still, as `Puts` does of a listing.
fn fit_columns(
    nodes: &Nodes,
    plan: &Plan,
    low: &mut [i32],
    high: &mut [i32],
    chosen: &mut [i32],
) -> [BranchFit; TREE_SIZE]
    requires some { (1 ≤ plan.now.taxa) × (plan.now.taxa ≤ 64) }
    requires state_lists { (length low.old ≡ matrix_size) × (length high.old ≡ matrix_size) × (length chosen.old ≡ matrix_size) }
    ensures { Written (lent_lists nodes.now.lent) plan.now.taxa nodes.now.lent.m nodes.now.lent.m plan.now.tree low.old low.new high.old high.new chosen.old chosen.new result }
{
    let mut branches = [BranchFit::default(); TREE_SIZE];
    for j in 1..nodes.lent.m + 1 {
        let own = own_sets(nodes.lent.matrix, plan.taxa(), j);
        let states = fit_character(&own, plan);
        add_lengths(
            &mut branches,
            plan,
            weight_at(nodes.lent.weights, j - 1),
            &states,
        );
        write_column(low, plan, j, &states, |of_node| of_node.low);
        write_column(high, plan, j, &states, |of_node| of_node.high);
        write_column(chosen, plan, j, &states, |of_node| of_node.chosen);
    }
    branches
}

// Whether three lists have the matrix's size.
// Kept: interface, it is promised of any three sizes.
#[tactic(auto, unfolding(fit_form::specs::Calls::lists_full))]
pub fn lists_full(low: usize, high: usize, chosen: usize) -> bool
    ensures { result ≡ lists_full low high chosen }
{
    [low, high, chosen] == [MATRIX_SIZE; 3]
}

// The fit of no branch.
fn no_fit() -> Fit
    ensures { result ≡ no_fit }
{
    Fit {
        branches: [BranchFit::default(); TREE_SIZE],
        total: 0,
    }
}

// Fits a tree that is a branching, with a lent matrix that no question refuses, and writes the states of its HTUs into three lists of
// the matrix's shape. Whatever is handed in, nothing else is written, and where a shape fails nothing is. Which states and numbers it finds
// of another tree, or of codes or weights out of range, is left open: a call or a read has asked for these.
// Kept: no plainer, each promise of a struct of lists to be written would have to say that it lends the same ones still, as `Puts` does of a listing.
// Kept: interface, a call that could not fail still cannot: where a shape fails it answers zeros.
pub fn fit_tree(
    lent: &Lent,
    tree: &Tree,
    low: &mut [i32],
    high: &mut [i32],
    chosen: &mut [i32],
) -> Fit
    ensures { TreeFitted (lent_lists lent.now) lent.now.n lent.now.m (ancestors tree.now) low.old low.new high.old high.new chosen.old chosen.new result }
{
    if !lent.is_shaped() {
        return no_fit();
    }
    if !lists_full(low.len(), high.len(), chosen.len()) {
        return no_fit();
    }
    let plan = Plan::of(tree, lent.n);
    let nodes = Nodes { lent: *lent };
    let branches = fit_columns(&nodes, &plan, low, high, chosen);
    Fit {
        branches,
        total: sum_lengths(&branches, &plan),
    }
}

// The states of node v in character j, of a tree that is a branching, with a lent matrix that no question refuses. Which states it answers
// of another tree, or of codes out of range, is left open: the call has asked for these.
// Kept: interface, a call that could not fail still cannot: without a matrix of its shape, the node or the character it answers zeros.
pub fn states_at(lent: &Lent, tree: &Tree, v: usize, j: usize) -> States
    ensures { StatesOf (lent_lists lent.now) lent.now.n lent.now.m (ancestors tree.now) v j result }
{
    if !lent.is_shaped() {
        return States::default();
    }
    if !one_to(lent.m, j) {
        return States::default();
    }
    if !one_to(last_node(lent.n), v) {
        return States::default();
    }
    fit_character(&own_sets(lent.matrix, lent.n, j), &Plan::of(tree, lent.n))[v]
}
