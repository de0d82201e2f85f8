// Writing a swap file into a buffer of the caller's.
#![tactic(auto)]

mod chain_record;
mod equation_record;
pub mod fault;
pub mod file;
mod line_record;
mod numbers;
mod parts;
mod rule_record;
mod stored_load;
mod written;
