// Entering an equation into the book.
ghost use Rattle.register.specs.Calls.{Enter, Entered, Did, replied};
ghost use Rattle.register.specs.View.{view};

use crate::register::Register;
use refusals::Refusal;
use worksheet::equation::Equation;

impl Register {
    // Adds an equation, and gives its number.
    pub fn enter(&mut self, equation: Equation) -> Result<usize, Refusal>
        ensures { Did (view self.old) (Enter equation) (replied Entered result) (view self.new) }
    {
        if self.settled {
            return Err(Refusal::NotOpen);
        }
        if equation.left.is_empty() || equation.right.is_empty() {
            return Err(Refusal::EmptySide);
        }
        self.book.enter(equation).ok_or(Refusal::BookFull)
    }
}
