// The keys of the taxa while a build goes on: by them the taxon to place next is chosen, and after its placement they are made right.
ghost use Rattle.std.specs.Prelude.{◌≤◌};
ghost use Rattle.matrix_form.specs.Shape.{most_taxa};

use crate::closeness::Made;
use crate::order::KEYS;
use branching::tree::Tree;
use tree_form::order::Order;
use tree_form::tree::TREE_SIZE;

// The order of placing; the key of each taxon; and by closeness the interval differences that are kept of it, by the lower end.
// Kept: no plainer, the keys of both orders are one list, as `advancements` makes it; the table is read and written by closeness alone.
#[derive(Drop)]
pub(crate) struct Keys {
    pub(crate) order: Order,
    pub(crate) keys: [u64; KEYS],
    pub(crate) table: [[u64; TREE_SIZE]; KEYS],
}

impl Keys {
    ghost use Rattle.std.specs.Prelude.{◌≡◌};
    ghost use Rattle.lists.specs.Least.{least_of};
    ghost use Rattle.lists.specs.Numbers.{numbers};
    ghost use Rattle.branching.specs.Views.{ancestors};
    ghost use Rattle.tree_form.specs.Nodes.{nodes_out};
    ghost use Rattle.wagner.specs.Order.{key_of};
    ghost use Rattle.wagner.specs.Closeness.{KeysMade};
    ghost use Rattle.tree_form.specs.declared.order.Order.TheVariants.{Closest};

    // The taxon to place next: of those of n taxa that are not placed the first of least key, and 0 if all are placed.
    pub(crate) fn next(&self, n: usize, tree: &Tree) -> usize
        requires { n ≤ most_taxa }
        ensures { result ≡ least_of (key_of self.now.keys) (nodes_out (ancestors tree.now) (numbers 1 n)) }
    {
        (1..n + 1)
            .filter(|v| !tree.in_tree(*v))
            .min_by_key(|v| self.keys[*v])
            .unwrap_or(0)
    }

    // Makes the keys by closeness, and what is kept, right after a placement, for each taxon that is not placed.
    fn renew_closest(&mut self, made: &Made)
        ensures order { self.new.order ≡ self.old.order }
        ensures keys { KeysMade Closest made.now self.old.keys self.old.table self.new.keys self.new.table }
    {
        for v in 1..made.nodes.lent.n + 1 {
            if !made.placed.tree.in_tree(v) {
                let key = made.renew(v, &mut self.table[v]);
                // Kept: no plainer, `renew` says that there is a key behind each placement: with an `if let` the proof would have a branch more, in which nothing is written.
                self.keys[v] = key.unwrap_or(self.keys[v]);
            }
        }
    }

    // Makes the keys right after a placement: by advancement they stay.
    // Kept: no plainer, the one place of a build where the orders differ; the match names what each of the two does.
    pub(crate) fn renew(&mut self, made: &Made)
        ensures order { self.new.order ≡ self.old.order }
        ensures keys { KeysMade self.old.order made.now self.old.keys self.old.table self.new.keys self.new.table }
    {
        match self.order {
            Order::Advance => {}
            Order::Closest => self.renew_closest(made),
        }
    }
}
