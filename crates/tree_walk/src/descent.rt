// The walk over a branching, and the descendants of each of its nodes.
ghost use Rattle.std.specs.Prelude.{◌≡◌, ◌≤◌, List, ℕ};
ghost use Rattle.branching.specs.Views.{ancestors};
ghost use Rattle.tree_walk.specs.Walks.{Walking, Belows, Descending};
ghost use Rattle.tree_walk.specs.Steps.{with_descendant, WithinBelow, NodePut};

use crate::walk::{Below, Descent, Walk};
use branching::tree::{Tree, last_index, tree_index};
use filled::Filled;
use tree_form::tree::TREE_SIZE;

// The descendants of a node, with one more behind them as far as there are two.
// Kept: no plainer, `Below` has 0 for none, which the passes of a fit read as a place; a method would stand in `walk`, for its one caller here.
#[tactic(auto, unfolding(crate::specs::Steps::with_descendant))]
fn with_descendant(below: Below, u: usize) -> Below
    ensures { result ≡ with_descendant below u }
{
    if below.first == 0 {
        return Below { first: u, ..below };
    }
    if below.second == 0 {
        return Below { second: u, ..below };
    }
    below
}

// The descendants of each node of a tree, as far as there are two.
fn below_of(tree: &Tree, n: usize) -> [Below; TREE_SIZE]
    ensures { Belows n (ancestors tree.now) result }
{
    let list = tree.list();
    let mut below = [Below::default(); TREE_SIZE];
    let end = last_index(n) + 1;
    for u in 2..end {
        let above = tree_index(list[u]);
        below[above] = with_descendant(below[above], u);
    }
    below
}

// Puts a node behind those of a walk. 0 is no node, and behind `last` nodes none is put.
// Kept: no plainer, `Below` has 0 for none, which the passes of a fit read as a place.
#[tactic(auto, using(crate::proofs::Walks::put_some))]
fn put_node(walk: &mut Walk, last: usize, v: usize)
    requires { last ≤ 126 }
    ensures { NodePut last walk.old.count walk.old.items v walk.new.count walk.new.items }
{
    if v != 0 && walk.count < last {
        walk.push(v);
    }
}

// The walk from node 1 down: behind the nodes that stand in it, the descendants of its first node, of its second, and so on.
fn walk_down(below: &[Below; TREE_SIZE], n: usize) -> Walk
    requires { WithinBelow below.now }
    ensures { (tree : List ℕ) → Belows n tree below.now → Walking n tree result }
{
    let last = last_index(n);
    let mut walk = Filled::none(0);
    walk.push(1);
    let mut i = 0;
    // Kept: no plainer, the walk grows while it is gone through: a `for` up to the last node would have an arm for no node, which never comes.
    while i < walk.count {
        let pair = below[walk.items[i]];
        put_node(&mut walk, last, pair.first);
        put_node(&mut walk, last, pair.second);
        i += 1;
    }
    walk
}

// The walk over a branching of n taxa, and the descendants of each of its nodes.
pub fn descent_over(tree: &Tree, n: usize) -> Descent
    ensures { Descending n (ancestors tree.now) result }
{
    let below = below_of(tree, n);
    let walk = walk_down(&below, n);
    Descent { walk, below }
}
