// When the content of a file is taken over by an open register.
#![tactic(auto)]

pub mod equations;
pub mod fault;
pub mod lines;
pub mod meeting;
pub mod rules;
pub mod theorems;
pub mod worksheets;
