// The Prim Network of a lent matrix. Of each unplaced taxon the link is kept that would place it: to the placed taxon nearest to it. When a
// taxon has been placed, each one that is still unplaced is compared with it once.
ghost use Rattle.std.specs.Prelude.{◌≡◌, [], ◌≤◌, map, filter_map, option_and_then};
ghost use Rattle.difference.specs.Steps.{between};
ghost use Rattle.lists.specs.Numbers.{numbers};
ghost use Rattle.lists.specs.Least.{least_item};
ghost use Rattle.matrix_form.specs.Shape.{most_taxa};
ghost use Rattle.prim_form.specs.Network.{network};
ghost use Rattle.prim.specs.Calls.{Holds, NetworkOf, NetworkAnswer};
ghost use Rattle.prim.specs.Growing.{WithLink, Near, first_link, moved_link, link_length};
ghost use Rattle.matrix.specs.Lent.{lent_lists};

use crate::answer::{MOST_LINKS, Network};
use difference::nodes::Nodes;
use filled::Filled;
use matrix::lent::Lent;
use matrix_form::refusal::Refusal;
use prim_form::answer::Link;
use std::array;

// The link of taxon v before any is placed behind row 1: to row 1, if v is one of the taxa.
fn first_link(nodes: &Nodes, v: usize) -> Option<Link>
    ensures { result ≡ first_link (between nodes.now) nodes.now.lent.n v }
{
    if nodes.lent.n < v {
        return None;
    }
    Some(Link {
        taxon: v,
        joined: 1,
        length: nodes.difference(v, 1),
    })
}

// What is kept of the taxa from 2 on before any of them is placed.
fn start(nodes: &Nodes) -> [Option<Link>; MOST_LINKS]
    ensures { result ≡ map (first_link (between nodes.now) nodes.now.lent.n) (numbers 2 63) }
{
    array::from_fn(|i| first_link(nodes, i + 2))
}

// The link that places the unplaced taxon nearest to the network, of the lowest row among equals; none if all are placed.
fn next_link(waiting: &[Option<Link>; MOST_LINKS]) -> Option<Link>
    ensures { result ≡ least_item link_length (filter_map (λ kept. kept) waiting.now) }
{
    waiting
        .iter()
        .filter_map(|kept| *kept)
        .min_by_key(|link| link.length)
}

// What is kept of a taxon when taxon v has been placed: its link moves only if v is nearer, and v itself waits no longer.
fn moved(kept: Option<Link>, nodes: &Nodes, v: usize) -> Option<Link>
    ensures { result ≡ option_and_then (moved_link (between nodes.now) v) kept }
{
    let link = kept?;
    if link.taxon == v {
        return None;
    }
    let length = nodes.difference(link.taxon, v);
    if length < link.length {
        return Some(Link {
            joined: v,
            length,
            ..link
        });
    }
    Some(link)
}

// What is kept of the taxa when taxon v has been placed.
fn place(waiting: &mut [Option<Link>; MOST_LINKS], nodes: &Nodes, v: usize)
    ensures { waiting.new ≡ map (option_and_then (moved_link (between nodes.now) v)) waiting.old }
{
    for kept in waiting.iter_mut() {
        *kept = moved(*kept, nodes, v);
    }
}

// Kept: no plainer, a derive would want `Default` of `Filled`, and would say what the fields are, where this says that it holds no links.
impl Default for Network {
    ghost is_default = { Holds [] };

    // A network without links.
    #[tactic(auto, unfolding(prim_form::specs::Network::network_length, lists::specs::Sums::sum_over, lists::specs::Filled::filled))]
    fn default() -> Network {
        Network {
            links: Filled::none(Link::default()),
            total: 0,
        }
    }
}

impl Network {
    // Puts a link behind those of the network.
    fn push(&mut self, link: Link)
        ensures { WithLink self.old link self.new }
    {
        self.links.push(link);
        self.total = self.total.wrapping_add(link.length);
    }
}

// The Prim Network of 1 to 64 taxa, if none of them is too far from row 1 for the total to be counted.
fn grow(nodes: &Nodes) -> Network
    requires { (1 ≤ nodes.now.lent.n) × (nodes.now.lent.n ≤ most_taxa) }
    ensures { Near (between nodes.now) nodes.now.lent.n → Holds (network (between nodes.now) nodes.now.lent.n) result }
{
    let mut waiting = start(nodes);
    let mut network = Network::default();
    // Kept: no plainer, it ends where no taxon waits: a `for` over the taxa would have an arm for no next link, which never comes.
    while let Some(link) = next_link(&waiting) {
        network.push(link);
        place(&mut waiting, nodes, link.taxon);
    }
    network
}

// The Prim Network of a lent matrix that no question refuses. Which links it answers of codes or weights out of range is left open: a
// call or a read has asked for these.
// Kept: interface, a call that could not fail still cannot: where the matrix has not its shape it answers no links.
pub fn network_of(lent: &Lent) -> Network
    ensures { NetworkOf (lent_lists lent.now) lent.now.n lent.now.m result }
{
    if !lent.is_shaped() {
        return Network::default();
    }
    grow(&Nodes { lent: *lent })
}

// The Prim Network of a lent matrix, by the weights of its characters, with its questions.
#[tactic(auto, using(matrix_form::proofs::Passing::matrix_passed, matrix_form::proofs::Passing::weights_passed))]
pub fn network(lent: &Lent) -> Result<Network, Refusal>
    ensures { NetworkAnswer (lent_lists lent.now) lent.now.n lent.now.m result }
{
    lent.ask()?;
    Ok(network_of(lent))
}
