// The book and the table of a register: rows of equations and of rules, in room that is reserved once.
#![tactic(auto)]

pub mod book;
pub mod misfit;
mod stride;
pub mod table;
