// Reading a swap file where it lies: a window on each section, and in it record by record.
#![tactic(auto)]

mod header;
pub mod opening;
pub mod reader;
pub mod walk;
pub mod window;
