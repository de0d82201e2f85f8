// Why the rounds are right.
#![tactic(auto)]

pub mod theorems;
