// Rewriting of loads by a table of one-way rules: search, reduction, and the theory of the loads that a table decides.
#![tactic(auto)]

pub mod reduce;
pub mod search;
pub mod theorems;
