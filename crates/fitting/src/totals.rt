// The fitted total of a branching, from the pass up alone.
// Kept: no plainer, nodes are of what is lent and a plan is of a tree: a struct of both would be made in `total_of` and in `fit_tree`, each time for one call, and be taken apart in it.
ghost use Rattle.std.specs.Prelude.{◌≤◌};
ghost use Rattle.branching.specs.Views.{ancestors};
ghost use Rattle.fitting.specs.Costs.{WeighedOf, CostOf, CostsOf, TotalOf};
ghost use Rattle.matrix.specs.Lent.{lent_lists};

use branching::tree::Tree;
use difference::nodes::Nodes;
use fit_passes::characters::{least_cost, own_sets};
use fit_passes::planning::Plan;
use matrix::lent::Lent;
use matrix::weights::weight_at;

// A length as often as a weight says, if it is one that a character can have.
fn weighed(weight: u8, length: u64) -> u64
    ensures { WeighedOf weight length result }
{
    u64::from(weight).wrapping_mul(length)
}

// The least cost of character j, as often as its weight says.
fn cost_of(nodes: &Nodes, plan: &Plan, j: usize) -> u64
    requires { (1 ≤ j) × (j ≤ nodes.now.lent.m) }
    ensures { CostOf (lent_lists nodes.now.lent) plan.now.taxa nodes.now.lent.m plan.now.tree j result }
{
    let own = own_sets(nodes.lent.matrix, plan.taxa(), j);
    weighed(weight_at(nodes.lent.weights, j - 1), least_cost(&own, plan))
}

// The sum of the costs of all characters.
fn sum_costs(nodes: &Nodes, plan: &Plan) -> u64
    ensures { CostsOf (lent_lists nodes.now.lent) plan.now.taxa nodes.now.lent.m plan.now.tree result }
{
    (1..nodes.lent.m + 1)
        .map(|j| cost_of(nodes, plan, j))
        .fold(0, |sum, cost| sum.wrapping_add(cost))
}

// The fitted total of a tree that is a branching, with a lent matrix that no question refuses. It writes nothing and finds no range. Which
// number it answers of another tree, or of codes or weights out of range, is left open: a call or a read has asked for these.
// Kept: interface, a call that could not fail still cannot: where the matrix has not its shape it answers 0.
pub fn total_of(lent: &Lent, tree: &Tree) -> u64
    ensures { TotalOf (lent_lists lent.now) lent.now.n lent.now.m (ancestors tree.now) result }
{
    if !lent.is_shaped() {
        return 0;
    }
    sum_costs(&Nodes { lent: *lent }, &Plan::of(tree, lent.n))
}
