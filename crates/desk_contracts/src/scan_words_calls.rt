//! The contracts of `scan_words`.
ghost use Rattle.scan_words.specs.Orders.{order_in};
ghost use Rattle.scan_words.specs.Written.{Says};
ghost use Rattle.scan_words.specs.declared.order.Order.{Order};
ghost use Rattle.std.specs.Prelude.{IfOk, Some, ◌↔◌, ◌≡◌};

use base_types::{NoMemory, Word};
use scan_words::Order;
use std::alloc::Global;

/// As `scan_words::read_words`.
pub fn read_words(alloc: Global, words: &[Word]) -> Result<Option<Order>, NoMemory>
    ensures value { IfOk result (λ order. order ≡ order_in words.now) }
    ensures form { (order : Order) → (Says words.now order ↔ order_in words.now ≡ Some order) }
{
    scan_words::read_words(alloc, words)
}
