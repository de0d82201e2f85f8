// The register: a book of equations, a table of rules and a worksheet, in memory that is reserved when it is made.
#![tactic(auto)]

pub mod enter;
pub mod making;
pub mod matching;
pub mod reading;
pub mod register;
pub mod reopen;
pub mod replay;
pub mod settle;
pub mod standard;
pub mod verdict;
