// The lines of the listing, one method for each kind: fields with a tab before each but the first, and a line feed.
// Kept: no plainer, the names are no part of the bytes that are put: one listing serves a job with names and a refusal without.
ghost use Rattle.listing_form.specs.Kinds.{index_line, prim_line, wagner_line, branch_line, state_line, refusal_line};
ghost use Rattle.lines.specs.Fields.{total_text};
ghost use Rattle.lines.specs.Puts.{Puts};
ghost use Rattle.lines.specs.Fields.{names_of};

use crate::names::Names;
use crate::put::Listing;
use consistency_form::index::Index;
use fit_form::characters::States;
use fit_form::whole::BranchFit;
use prim_form::answer::Link;
use text_form::LINE_FEED;
use tree_form::placement::Placement;

impl<'a> Listing<'a> {
    // Puts the line of a block's total, with the byte of its letter.
    // Kept: no plainer, the letter is a byte that is printed, and no number for a kind; an enum would be turned into it here.
    #[tactic(auto, using(crate::proofs::Fields::line_steps), unfolding(crate::specs::Fields::total_text))]
    pub fn put_total_line(&mut self, letter: u8, total: u64)
        ensures { Puts (total_text letter total) self.old self.new }
    {
        self.put_byte(letter);
        self.put_field(total);
        self.put_byte(LINE_FEED);
    }

    // Puts the line `c` of an index.
    #[tactic(auto, using(crate::proofs::Fields::line_steps), unfolding(text_form::specs::Text::bytes))]
    pub fn put_index_line(&mut self, index: Option<Index>)
        ensures { Puts (index_line index) self.old self.new }
    {
        self.put_byte(b'c');
        self.put_field(index.map(|index| index.quotient));
        self.put_field(index.map(|index| index.remainder));
        self.put_byte(LINE_FEED);
    }

    // Puts the line of a refusal, of any number: the number, and the line of the file.
    #[tactic(auto, using(crate::proofs::Fields::line_steps), unfolding(listing_form::specs::Kinds::refusal_line, text_form::specs::Text::bytes))]
    pub fn put_refusal_line(&mut self, number: u64, line: usize)
        ensures { Puts (refusal_line number line) self.old self.new }
    {
        self.put_byte(b'R');
        self.put_field(number);
        self.put_field(line as u64);
        self.put_byte(LINE_FEED);
    }

    // Puts the `P` line of a link: the taxon, the taxon it joins, their difference.
    #[tactic(auto, using(crate::proofs::Fields::line_steps), unfolding(listing_form::specs::Kinds::prim_line, text_form::specs::Text::bytes))]
    pub fn put_prim_line(&mut self, names: Names, link: Link)
        ensures { Puts (prim_line names.entry.n (names_of names.entry) link) self.old self.new }
    {
        self.put_byte(b'P');
        self.put_field(names.node(link.taxon));
        self.put_field(names.node(link.joined));
        self.put_field(link.length);
        self.put_byte(LINE_FEED);
    }

    // Puts the `W` line of a placement: the taxon, both ends of its interval, the HTU, the length added.
    #[tactic(auto, using(crate::proofs::Fields::line_steps), unfolding(listing_form::specs::Kinds::wagner_line, text_form::specs::Text::bytes))]
    pub fn put_wagner_line(&mut self, names: Names, placement: Placement)
        ensures { Puts (wagner_line names.entry.n (names_of names.entry) placement) self.old self.new }
    {
        self.put_byte(b'W');
        self.put_field(names.node(placement.taxon));
        self.put_field(names.node(placement.lower));
        self.put_field(names.node(placement.upper));
        self.put_field(names.node(placement.htu));
        self.put_field(placement.added);
        self.put_byte(LINE_FEED);
    }

    // Puts the `T` line of node v: its immediate ancestor, its length, its mark.
    #[tactic(auto, using(crate::proofs::Fields::line_steps), unfolding(listing_form::specs::Kinds::branch_line, text_form::specs::Text::bytes))]
    pub fn put_branch_line(&mut self, names: Names, v: usize, above: usize, branch: BranchFit)
        ensures { Puts (branch_line names.entry.n (names_of names.entry) v above branch.length branch.mark) self.old self.new }
    {
        self.put_byte(b'T');
        self.put_field(names.node(v));
        self.put_field(names.node(above));
        self.put_field(branch.length);
        self.put_field(branch.mark);
        self.put_byte(LINE_FEED);
    }

    // Puts the `H` line of node v and character j: the lowest and highest state, the chosen state.
    #[tactic(auto, using(crate::proofs::Fields::line_steps), unfolding(listing_form::specs::Kinds::state_line, text_form::specs::Text::bytes))]
    pub fn put_state_line(&mut self, names: Names, v: usize, j: usize, states: States)
        ensures { Puts (state_line names.entry.n (names_of names.entry) v j states.low states.high states.chosen) self.old self.new }
    {
        self.put_byte(b'H');
        self.put_field(names.node(v));
        self.put_field(j as u64);
        self.put_field(states.low);
        self.put_field(states.high);
        self.put_field(states.chosen);
        self.put_byte(LINE_FEED);
    }
}
