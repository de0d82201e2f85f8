// The record of an equation: its two loads.
use crate::parts::Parted;
use loads::Load;
use worksheet::equation::Equation;

impl Parted for Equation {
    type Parts = (Load, Load);

    ghost parts = { λ e. (e.left, e.right) };

    fn parts(&self) -> (Load, Load) {
        (self.left, self.right)
    }
}
