// The records of a swap file: how each kind stands in the bytes, and reading one where it stands.
#![tactic(auto)]

pub mod chain_record;
pub mod equation_record;
pub mod line_record;
mod numbered;
pub mod numbers;
pub mod record;
pub mod rule_record;
mod sides;
pub mod stored_load;
