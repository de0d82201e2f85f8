// Added lines of a worksheet.
use crate::equation::Equation;

// An added line: the equation that it claims, and how many numbers of the row of all chain numbers are its own. The chains stand one after
// another in the order of the lines.
#[derive(Clone, Copy)]
pub struct Line {
    pub claim: Equation,
    pub length: u16,
}
