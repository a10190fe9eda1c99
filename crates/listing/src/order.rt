// The order of placing that line 1 of a file means.
ghost use Rattle.std.specs.Prelude.{◌≡◌};
ghost use Rattle.listing_form.specs.Meant.{order_meant};

use tree_form::order::Order;

// The order that line 1 says by a word, and the one that is meant without a word.
// Kept: no plainer, a derived `Default` of `Order` would stand in branching, which knows no files, and a file is what means an order without a word.
pub fn order_meant(word: Option<Order>) -> Order
    ensures { result ≡ order_meant word }
{
    word.unwrap_or(Order::Advance)
}
