// Steps made.
use loads::Load;

// The line of the rule that a step used, and the load that it gave.
#[derive(Clone, Copy)]
pub(crate) struct Stride {
    pub line: u16,
    pub load: Load,
}
