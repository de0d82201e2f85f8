// What holds of the orders, each as the contract of a function that does nothing.
ghost use Rattle.orders.specs.Laws.{NoEndlessRow};
ghost use Rattle.orders.specs.Named.{report_above, house_above};
ghost use Rattle.orders.specs.Relations.{bulk};
ghost use Rattle.orders.specs.Worked.{Worked};

use crate::order::Order;

// No order has an endless row of loads, each below the one before.
pub fn no_endless_row<O: Order>(order: &O)
    ensures { NoEndlessRow (O.above order.now) }
{}

// The worked comparisons come out as they are told.
pub fn worked_comparisons()
    ensures { Worked report_above bulk house_above }
{}
