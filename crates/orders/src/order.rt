// What an order of loads is.
ghost use Rattle.std.specs.Prelude.{◌≡◌};
ghost use Rattle.orders.specs.Comparing.{answer};
ghost use Rattle.orders.specs.Laws.{Admissible, Relation};

use loads::Load;
use std::cmp::Ordering;

// An admissible order, a monomial order to the algebraist. Its meaning is a relation between loads of any size, and two orders with the same relation
// are the same order.
pub trait Order {
    // `above o x y`: by the order o the load x is above the load y
    ghost above: { Self → Relation };

    // The answer is what the relation says.
    fn compare(&self, a: &Load, b: &Load) -> Ordering
        ensures { result ≡ answer (above self.now) a.now b.now };

    ghost laws: { (o : Self) → Admissible (above o) };
}

// The first load is above the second.
pub fn higher<O: Order>(order: &O, a: &Load, b: &Load) -> bool
    ensures { result ≡ O.above order.now a.now b.now }
{
    order.compare(a, b).is_gt()
}
