// Equations of a book.
ghost use Rattle.std.specs.Prelude.{◌≡◌};
ghost use Rattle.worksheet.specs.Claims.{turned};

use loads::Load;

// Two loads, of which either may be swapped for the other: a relation of the presentation that the book is.
#[derive(Clone, Copy, PartialEq, Eq)]
pub struct Equation {
    pub left: Load,
    pub right: Load,
}

impl Equation {
    // The equation the other way round.
    pub(crate) fn turned(self) -> Equation
        ensures { result ≡ turned self }
    {
        Equation {
            left: self.right,
            right: self.left,
        }
    }
}
