// Two loads in a file, one behind the other: the sides of an equation, a rule or a line.
ghost use Rattle.std.specs.Prelude.{◌≡◌, ◌+◌, ◌<◌, ◌≤◌, length, MatchOption};
ghost use Rattle.swapfile.specs.Equations.{equation_at, equation_item};
ghost use Rattle.swapfile.specs.Sides.{sides_size, sides_zero};

use crate::stored_load::StoredLoad;
use swapfile::items::EquationItem;
use worksheet::equation::Equation;

// Two loads that the bytes hold, of which the right begins behind the left.
#[derive(Clone, Copy)]
pub(crate) struct Sides<'a> {
    left: StoredLoad<'a>,
    pub right: StoredLoad<'a>,
    ghost same: { right.bytes.now ≡ left.bytes.now },
    ghost behind: { right.at ≡ left.end },
}

impl<'a> Sides<'a> {
    // Two loads of which the left begins at a byte, if the bytes hold both.
    pub fn find(bytes: &'a [u8], at: usize) -> Option<Sides<'a>>
        ensures { MatchOption result (length bytes.now < at + sides_size bytes.now at) (λ x. (x.left.bytes.now ≡ bytes.now) × (x.left.at ≡ at)) }
    {
        let left = StoredLoad::find(bytes, at)?;
        let right = StoredLoad::find(bytes, left.end)?;
        Some(Sides { left, right })
    }

    // Where they begin.
    pub fn item(&self) -> EquationItem
        ensures { result ≡ equation_item self.now.left.bytes.now self.now.left.at }
    {
        EquationItem {
            left: self.left.at,
            right: self.right.at,
        }
    }

    // The two loads.
    pub fn read(&self) -> Equation
        ensures { result ≡ equation_at self.now.left.bytes.now self.now.left.at }
    {
        Equation {
            left: self.left.read(),
            right: self.right.read(),
        }
    }

    // The byte of their first present count that is 0.
    pub fn zero_count(&self) -> Option<usize>
        ensures { result ≡ sides_zero self.now.left.bytes.now self.now.left.at }
    {
        self.left.zero_count().or(self.right.zero_count())
    }
}
