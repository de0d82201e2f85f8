// Rules of a table.
use loads::Load;

// A one-way (rewrite) rule, and the number of the worksheet line that claims it.
#[derive(Clone, Copy)]
pub struct Rule {
    pub left: Load,
    pub right: Load,
    pub line: u16,
}
