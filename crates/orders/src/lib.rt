// Admissible orders of loads: the trait with its five laws, and the orders that keep them. docs/ORDERS.md tells them in words.
#![tactic(auto)]

pub mod bulk;
pub mod listed;
pub mod named;
pub mod order;
pub mod split;
pub mod theorems;
pub mod weights;
