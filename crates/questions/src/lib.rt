// What a round asks: whether the two loads of each equation, and of each pair of rules, end in one.
#![tactic(auto)]

pub mod asking;
pub mod pair;
pub mod placed;
pub mod question;
