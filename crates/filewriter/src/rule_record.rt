// The record of a rule: its two loads and the number of its line.
use crate::parts::Parted;
use loads::Load;
use worksheet::rule::Rule;

impl Parted for Rule {
    type Parts = ((Load, Load), u16);

    ghost parts = { λ r. ((r.left, r.right), r.line) };

    fn parts(&self) -> ((Load, Load), u16) {
        ((self.left, self.right), self.line)
    }
}
