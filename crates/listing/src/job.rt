// The listing of a job: what is computed from lists, and the blocks of lines put for it in their order.
ghost use Rattle.std.specs.Prelude.{◌≡◌, true};
ghost use Rattle.matrix_form.specs.Spans.{spans_of};
ghost use Rattle.matrix_form.specs.Questions.{MatrixLent};
ghost use Rattle.matrix_form.specs.Shape.{matrix_of};
ghost use Rattle.matrix.specs.Lent.{lent_lists};
ghost use Rattle.difference_form.specs.Rows.{weighing};
ghost use Rattle.branching.specs.Views.{ancestors};
ghost use Rattle.tree_form.specs.Within.{branching_within};
ghost use Rattle.lines.specs.Fields.{names_of};
ghost use Rattle.lines.specs.Puts.{Puts};
ghost use Rattle.listing_form.specs.Meant.{order_meant};
ghost use Rattle.listing.specs.Found.{FittedOf, ResultsOf, tree_texts, result_texts};
ghost use Rattle.listing.specs.Found.{lists_of, ListsJob, BranchingLent};
ghost use Rattle.listing.specs.Rooms.{LendsLists, LegendOf};
ghost use Rattle.listing.specs.Sizes.{SizesWithin};

use crate::blocks::{Legend, put_block};
use crate::order::order_meant;
use branching::tree::Tree;
use consistency::floor::floor_of;
use consistency::index::index_of;
use consistency_form::index::Index;
use file_form::header::{Header, Kind};
use fit_form::whole::Fit;
use fitting::ranges::Ranges;
use fitting::whole::fit_tree;
use lines::names::Names;
use lines::put::Listing;
use matrix::lent::Lent;
use matrix::{COLUMNS, MATRIX_SIZE};
use matrix_file::NAMES_SIZE;
use prim::answer::Network;
use prim::network::network_of;
use prim_form::answer::Link;
use tree_form::placement::Placement;
use tree_records::lent::tree_of;
use tree_records::numbers::{LENT_NUMBERS, records_in};
use wagner::answer::WagnerTree;
use wagner::build::build_tree;

// What a file is read into: matrix, weights, names and branches.
#[derive(Drop)]
pub(crate) struct Lists {
    pub(crate) matrix: [i32; MATRIX_SIZE],
    pub(crate) weights: [u8; COLUMNS],
    pub(crate) names: [u8; NAMES_SIZE],
    pub(crate) branches: [usize; LENT_NUMBERS],
}

// Kept: no plainer, the room is made before its file is read, and a header comes from the reading: with one in the room there would be a header of no file until then.
// Room for a job: the lists that its file is read into, and the states of its HTUs.
#[derive(Drop)]
pub(crate) struct Room {
    pub(crate) lists: Lists,
    pub(crate) ranges: Ranges,
}

// What is listed of a tree: its fit, and the index of the fit.
#[derive(Drop)]
struct FittedTree {
    fit: Fit,
    index: Option<Index>,
}

// What is listed of a matrix: its Prim Network, its Wagner tree, and what is listed of that tree.
#[derive(Drop)]
struct Results {
    network: Network,
    built: WagnerTree,
    fitted: FittedTree,
}

impl<'a> Legend<'a> {
    // Puts the blocks of a tree: its `T` lines and `t`, the line `c`, and its `H` lines.
    fn put_tree(&self, listing: &mut Listing, tree: &Tree, fitted: &FittedTree)
        ensures { Puts
            (tree_texts self.now.names.n (names_of self.now.names) self.now.m tree.now fitted.now
            self.now.ranges.now.low self.now.ranges.now.high self.now.ranges.now.chosen)
            listing.old listing.new }
    {
        self.put_fitted_block(listing, tree, &fitted.fit);
        listing.put_index_line(fitted.index);
        self.put_state_lines(listing);
    }

    // Puts the blocks of a `W` file: its `P` lines and `p`, its `W` lines and `w`, and those of the tree built.
    fn put_results(&self, listing: &mut Listing, results: &Results)
        ensures { Puts
            (result_texts self.now.names.n (names_of self.now.names) self.now.m results.now
            self.now.ranges.now.low self.now.ranges.now.high self.now.ranges.now.chosen)
            listing.old listing.new }
    {
        let names = self.names;
        let network = &results.network;
        let built = &results.built;
        let put_prim = |listing: &mut Listing, link: Link| {
            listing.put_prim_line(names, link);
        };
        let put_wagner = |listing: &mut Listing, placement: Placement| {
            listing.put_wagner_line(names, placement);
        };
        put_block(
            listing,
            network.links.as_slice(),
            put_prim,
            b'p',
            network.total,
        );
        put_block(
            listing,
            built.placements.as_slice(),
            put_wagner,
            b'w',
            built.length,
        );
        self.put_tree(listing, &built.tree, &results.fitted);
    }
}

impl Room {
    // By what the lines of the job with this header go.
    fn legend(&self, header: Header) -> Legend<'_>
        requires { SizesWithin header.n header.m }
        ensures { LegendOf self.now header result }
    {
        Legend {
            names: Names {
                n: header.n,
                lent: &self.lists.names,
            },
            m: header.m,
            ranges: &self.ranges,
        }
    }
}

impl Lists {
    // The matrix and its weights, as a header counts its taxa and characters, to be read.
    fn lent(&self, header: Header) -> Lent<'_>
        ensures { LendsLists self.now header result }
    {
        Lent {
            matrix: &self.matrix,
            weights: &self.weights,
            n: header.n,
            m: header.m,
        }
    }
}

// The fit of a tree to what is lent, and its index. The states of the HTUs are written into ranges.
// Kept: no plainer, what is lent is made for this one reading: a view with the fact would be made by both callers, and `floor_of` and `fit_tree` take what is lent without it.
fn fitted_of(lent: &Lent, tree: &Tree, ranges: &mut Ranges) -> FittedTree
    requires lent_matrix { MatrixLent (lent_lists lent.now) lent.now.n lent.now.m }
    requires branching { branching_within lent.now.n (ancestors tree.now) ≡ true }
    ensures { FittedOf (weighing lent.now.weights.now) (spans_of (lent_lists lent.now) lent.now.m lent.now.n) lent.now.n lent.now.m (ancestors tree.now)
        ranges.new.low ranges.new.high ranges.new.chosen result }
{
    let floor = floor_of(lent);
    let fit = fit_tree(
        lent,
        tree,
        &mut ranges.low,
        &mut ranges.high,
        &mut ranges.chosen,
    );
    FittedTree {
        fit,
        index: index_of(floor, fit.total),
    }
}

// The network of the matrix that a room holds, its build in the order that the header means, and what is found of that tree. The rows of
// the HTUs are written into the matrix, their states into the room's ranges.
// Kept: no plainer, `build_tree` writes the matrix between two readings, and a struct with this fact would owe it while that is written.
fn results_of(header: Header, room: &mut Room) -> Results
    requires { MatrixLent (matrix_of room.old.lists.matrix room.old.lists.weights) header.n header.m }
    ensures found { ResultsOf (order_meant header.order) (matrix_of room.old.lists.matrix room.old.lists.weights) header.n header.m
        room.new.ranges.low room.new.ranges.high room.new.ranges.chosen result }
    ensures named { room.new.lists.names ≡ room.old.lists.names }
{
    let lists = &mut room.lists;
    let order = order_meant(header.order);
    let network = network_of(&lists.lent(header));
    let built = build_tree(&mut lists.matrix, &lists.weights, header.n, header.m, order);
    let fitted = fitted_of(&lists.lent(header), &built.tree, &mut room.ranges);
    Results {
        network,
        built,
        fitted,
    }
}

// Puts the listing of the job with this header that a room holds. Of a `W` file no branching is read.
// Kept: no plainer, the two kinds of file have listings of different blocks, and no other function of this crate goes by the kind.
// Kept: no plainer, `build_tree` writes the matrix between two readings, and a struct with this fact would owe it while that is written.
pub(crate) fn put_job(listing: &mut Listing, header: Header, room: &mut Room)
    requires lent_matrix { MatrixLent (matrix_of room.old.lists.matrix room.old.lists.weights) header.n header.m }
    requires branching_lent { BranchingLent header room.old.lists.branches }
    ensures { ListsJob header (lists_of room.old.lists) listing.old listing.new }
{
    match header.kind {
        Kind::Wagner => {
            let found = results_of(header, room);
            room.legend(header).put_results(listing, &found);
        }
        Kind::Own => {
            let tree = tree_of(&records_in(&room.lists.branches), header.n);
            let fitted = fitted_of(&room.lists.lent(header), &tree, &mut room.ranges);
            room.legend(header).put_tree(listing, &tree, &fitted);
        }
    }
}
