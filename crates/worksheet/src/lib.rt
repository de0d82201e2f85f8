// What stands in a register: equations, rules, and the lines of the worksheet with their chains; and following a chain.
#![tactic(auto)]

pub mod equation;
pub mod fault;
pub mod line;
pub mod lines;
pub mod net;
pub mod rule;
