// The blocks of the listing, each apart: the lines of the network, of the placements, of the fitted tree and of the states.
ghost use Rattle.std.specs.Prelude.{List, ℕ};
ghost use mathlib.Core.List.{flat_map, ◌++◌};
ghost use Rattle.lines.specs.Fields.{names_of};
ghost use Rattle.lines.specs.Fields.{total_text};
ghost use Rattle.lines.specs.Puts.{Puts};
ghost use Rattle.listing.specs.Handed.{PutsLine, fitted_texts, node_texts, state_texts};
ghost use Rattle.listing.specs.Sizes.{SizesWithin};

use branching::tree::Tree;
use fit_form::whole::Fit;
use fitting::ranges::Ranges;
use lines::names::Names;
use lines::put::Listing;

// By what the lines of a job go: the names of its taxa, how many characters it has, and the states of its HTUs.
#[derive(Clone, Copy)]
pub(crate) struct Legend<'a> {
    pub(crate) names: Names<'a>,
    pub(crate) m: usize,
    pub(crate) ranges: &'a Ranges,
    ghost within: { SizesWithin names.n m },
}

// Puts a block: the lines of some things, one after another, by what puts the line of one, and the line of the block's total.
// Kept: no plainer, the letter is a byte that is printed, and no number for a kind.
pub(crate) fn put_block<T: Copy, F: Fn(&mut Listing, T)>(
    listing: &mut Listing,
    things: &[T],
    put: F,
    letter: u8,
    total: u64,
)
    requires { F.IsAlwaysCallable put }
    ensures { (line : T → List ℕ) → PutsLine (F.post put) line
        → Puts (flat_map line things.now ++ total_text letter total) listing.old listing.new }
{
    for thing in things {
        put(listing, *thing);
    }
    listing.put_total_line(letter, total);
}

impl<'a> Legend<'a> {
    // Kept: no plainer, `put_block` goes over the things of a list, and here each line wants the number of a node beside its branch.
    // Kept: unproved, up to `last_node(n) + 1` the check leaves open that the sum fits and what the loop begins with: `last_node` stays unopened.
    // Puts the block of a fitted tree: its `T` lines, for nodes 2 to 2n-2, and the line `t`.
    pub(crate) fn put_fitted_block(&self, listing: &mut Listing, tree: &Tree, fit: &Fit)
        ensures { Puts (fitted_texts self.now.names.n (names_of self.now.names) tree.now fit.now) listing.old listing.new }
    {
        for v in 2..2 * self.names.n - 1 {
            listing.put_branch_line(self.names, v, tree.ancestor(v), fit.branches[v]);
        }
        listing.put_total_line(b't', fit.total);
    }

    // Puts the `H` lines of node v, for characters 1 to m.
    fn put_node_lines(&self, listing: &mut Listing, v: usize)
        ensures { Puts (node_texts self.now.names.n (names_of self.now.names) self.now.ranges.now self.now.m v) listing.old listing.new }
    {
        for j in 1..self.m + 1 {
            listing.put_state_line(self.names, v, j, self.ranges.states(v, j));
        }
    }

    // Puts the `H` lines of HTUs n+1 to 2n-2, for characters 1 to m.
    pub(crate) fn put_state_lines(&self, listing: &mut Listing)
        ensures { Puts (state_texts self.now.names.n (names_of self.now.names) self.now.ranges.now self.now.m) listing.old listing.new }
    {
        let n = self.names.n;
        for v in n + 1..2 * n - 1 {
            self.put_node_lines(listing, v);
        }
    }
}
