// The swap file: a register's content as bytes, which bytes are such a file, and that each tells the other.
#![tactic(auto)]

pub mod fault;
pub mod items;
pub mod theorems;
