// Orders of placing by number, and the question put to such a number.
ghost use Rattle.std.specs.Prelude.{◌≡◌, length};
ghost use Rattle.matrix_form.specs.Outcomes.{Answers};
ghost use Rattle.export_form.specs.Orders.{order_number, order_numbered, ask_order};

use matrix::{COLUMNS, MATRIX_SIZE};
use matrix_form::refusal::Refusal;
use tree_form::order::Order;

// The number of the order by advancement.
// Kept: interface, C hands an order over as a number and reads it as one.
pub const ADVANCE: u64 = 1;

// The number of the order in which the closest taxon comes first.
// Kept: interface, C hands an order over as a number and reads it as one.
pub const CLOSEST: u64 = 2;

// The number of an order.
// Kept: interface, the numbers are C's; as `From<Order>` they would have to stand in branching, which knows nothing of C.
pub(crate) fn order_number(order: Order) -> u64
    ensures { result ≡ order_number order }
{
    match order {
        Order::Advance => ADVANCE,
        Order::Closest => CLOSEST,
    }
}

// The order with a number, behind the sizes of the matrix and of the weights.
// Kept: interface, the numbers are C's; as `TryFrom<u64>` they would have to stand in branching, which knows nothing of C.
#[tactic(auto, unfolding(export_form::specs::Orders::ask_order, export_form::specs::Orders::is_number, export_form::specs::Orders::order_numbered))]
pub(crate) fn order_asked(matrix: &[i32], weights: &[u8], number: u64) -> Result<Order, Refusal>
    ensures { Answers (ask_order (length matrix.now) (length weights.now) number) (λ order. order ≡ order_numbered number) result }
{
    if matrix.len() != MATRIX_SIZE || weights.len() != COLUMNS {
        return Err(Refusal::ListSize);
    }
    match number {
        ADVANCE => Ok(Order::Advance),
        CLOSEST => Ok(Order::Closest),
        _ => Err(Refusal::UnknownOrder),
    }
}
