// Completion: the rounds that make a table of rules from a book, with the worksheet that shows where each rule comes from.
#![tactic(auto)]

pub mod capacity;
pub mod chaining;
pub mod fault;
pub mod found;
pub mod task;
pub mod workings;
