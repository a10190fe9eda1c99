// The names of taxa in lent bytes, and the nodes that they name.
ghost use Rattle.std.specs.Prelude.{◌≡◌};
ghost use Rattle.listing_form.specs.Lines.{node_name};
ghost use Rattle.file_form.specs.Written.{name_bytes};
ghost use Rattle.lines.specs.Fields.{names_of, node_text};

use file_form::NAME_SIZE;

// The names of n taxa, in lent bytes.
// Kept: no plainer, room is lent for 64 names, or less: a slice of n names would first be cut from it, where that can fail, and then be asked for n again.
#[derive(Clone, Copy)]
pub struct Names<'a> {
    pub n: usize,
    pub lent: &'a [u8],
}

// A node, as names say it.
#[derive(Clone, Copy)]
pub(crate) struct Node<'a> {
    pub(crate) names: Names<'a>,
    pub(crate) v: usize,
}

impl<'a> Names<'a> {
    // Node v.
    #[tactic(auto, unfolding(crate::specs::Fields::node_text))]
    pub(crate) fn node(self, v: usize) -> Node<'a>
        ensures { node_text result ≡ node_name self.entry.n (names_of self.entry) v }
    {
        Node { names: self, v }
    }

    // The bytes lent for the name at index k, as far as the lent list goes.
    #[tactic(auto, unfolding(file_form::specs::Written::name_bytes))]
    pub(crate) fn name_bytes(self, k: usize) -> &'a [u8]
        ensures { result.now ≡ name_bytes self.entry.lent.now k }
    {
        self.lent.chunks(NAME_SIZE).nth(k).unwrap_or(&[])
    }
}
