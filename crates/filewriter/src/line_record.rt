// The record of an added line: its two loads and the length of its chain. No other file of the writer knows this layout.
use crate::parts::Parted;
use worksheet::equation::Equation;
use worksheet::line::Line;

impl Parted for Line {
    type Parts = (Equation, u16);

    ghost parts = { λ l. (l.claim, l.length) };

    fn parts(&self) -> (Equation, u16) {
        (self.claim, self.length)
    }
}
