// The fields of a line: what each says, and how it is put.
ghost use Rattle.std.specs.Prelude.{List, ◌∷◌, ℕ};
ghost use Rattle.text_form.specs.Bytes.{tab};
ghost use Rattle.text_form.specs.Decimal.{digits_of, decimal};
ghost use Rattle.listing_form.specs.Kinds.{mark};
ghost use Rattle.lines.specs.Fields.{node_text, or_hyphen};
ghost use Rattle.lines.specs.Puts.{Puts};

use crate::names::Node;
use crate::put::Listing;
use difference::codes::apart;
use text_form::TAB;

const HYPHEN: u8 = b'-';

const PLUS: u8 = b'+';

const HASH: u8 = b'#';

// A field of a line.
pub(crate) trait Field: Copy {
    // The bytes that it says.
    ghost text: { Self → List ℕ };

    // Puts them.
    fn put(self, listing: &mut Listing)
        ensures { Puts (text self) listing.old listing.new };
}

// A number in decimal.
impl Field for u64 {
    ghost text = { digits_of };

    fn put(self, listing: &mut Listing) {
        listing.put_number(self);
    }
}

// A code in decimal.
// Kept: no plainer, what `apart` promises of a code and 0 is the size that the definition of decimals takes; of `unsigned_abs` it would be shown.
#[tactic(auto, using(crate::proofs::Fields::field_steps))]
impl Field for i32 {
    ghost text = { decimal };

    fn put(self, listing: &mut Listing) {
        let size = apart(self, 0);
        if self < 0 {
            listing.put_byte(HYPHEN);
            listing.put_number(size);
        } else {
            listing.put_number(size);
        }
    }
}

// The mark of a branch.
#[tactic(auto, unfolding(listing_form::specs::Kinds::mark, text_form::specs::Text::bytes))]
impl Field for bool {
    ghost text = { mark };

    fn put(self, listing: &mut Listing) {
        if self {
            listing.put_byte(PLUS);
        } else {
            listing.put_byte(HYPHEN);
        }
    }
}

// A hyphen for no node, a taxon by its name, an HTU by `#` and its number among the HTUs.
#[tactic(auto, using(crate::proofs::Fields::field_steps), unfolding(crate::specs::Fields::node_text, listing_form::specs::Lines::htu_name, text_form::specs::Text::bytes))]
impl<'a> Field for Node<'a> {
    ghost text = { node_text };

    fn put(self, listing: &mut Listing) {
        let v = self.v;
        let n = self.names.n;
        // Kept: no plainer, a `T` line is promised of any tree, whose numbers have 0 for none: with an Option in placements both forms of none would stand side by side.
        if v == 0 {
            return listing.put_byte(HYPHEN);
        }
        if v <= n {
            return listing.put_name(self.names.name_bytes(v - 1));
        }
        listing.put_byte(HASH);
        listing.put_number((v - n) as u64);
    }
}

// A hyphen where there is no field.
#[tactic(auto, unfolding(crate::specs::Fields::or_hyphen, listing_form::specs::Lines::hyphen, text_form::specs::Text::bytes))]
impl<F: Field> Field for Option<F> {
    ghost text = { or_hyphen F.text };

    fn put(self, listing: &mut Listing) {
        match self {
            Some(field) => field.put(listing),
            None => listing.put_byte(HYPHEN),
        }
    }
}

#[tactic(auto, using(crate::proofs::Puts::put_head))]
impl<'a> Listing<'a> {
    // Puts a tab and a field.
    pub(crate) fn put_field<F: Field>(&mut self, field: F)
        ensures { Puts (tab ∷ F.text field) self.old self.new }
    {
        self.put_byte(TAB);
        field.put(self);
    }
}
