// The lines of a worksheet, and following a chain of their numbers from a load.
ghost use Rattle.std.specs.Prelude.{◌≡◌};
ghost use Rattle.worksheet.specs.Claims.{nth, claimed, named};
ghost use Rattle.loads.specs.Answers.{marked};
ghost use Rattle.worksheet.specs.Replay.{swap, at_step, replay};

use crate::equation::Equation;
use crate::fault::{ReplayFault, SwapFault};
use crate::line::Line;
use loads::Load;

// All lines of a worksheet by their numbers: first the equations of the book, then the added lines.
#[derive(Clone, Copy)]
pub struct Lines<'a> {
    pub book: &'a [Equation],
    pub added: &'a [Line],
}

impl<'a> Lines<'a> {
    // The claim of the line at a place, counted from 0.
    pub fn claim_at(&self, place: usize) -> Option<Equation>
        ensures { result ≡ nth (claimed self.now) place }
    {
        match self.book.get(place) {
            Some(equation) => Some(*equation),
            None => self
                .added
                .get(place - self.book.len())
                .map(|line| line.claim),
        }
    }

    // What a chain number takes out and puts in: line k forward is k, backward -k.
    fn named(&self, number: i16) -> Option<Equation>
        ensures { result ≡ named (claimed self.now) number }
    {
        let place = usize::from(number.unsigned_abs()).checked_sub(1)?;
        let claim = self.claim_at(place)?;
        Some(if number > 0 { claim } else { claim.turned() })
    }

    // The swap that a chain number makes of a load.
    pub fn swap(&self, number: i16, load: &Load) -> Result<Load, SwapFault>
        ensures { result ≡ swap (claimed self.now) number load.now }
    {
        let claim = self.named(number).ok_or(SwapFault::NoLine)?;
        Ok(load.exchange(&claim.left, &claim.right)?)
    }

    // The swap that is step n of a chain.
    fn step(&self, n: usize, number: i16, load: &Load) -> Result<Load, ReplayFault>
        ensures { result ≡ marked (at_step n) (swap (claimed self.now) number load.now) }
    {
        self.swap(number, load)
            .map_err(|fault| ReplayFault { step: n, fault })
    }

    // Follows a chain from a load, and gives the load at its end.
    pub fn replay(&self, chain: &[i16], load: &Load) -> Result<Load, ReplayFault>
        ensures { result ≡ replay (claimed self.now) 1 chain.now load.now }
    {
        let mut at = *load;
        for (i, number) in chain.iter().enumerate() {
            at = self.step(i + 1, *number, &at)?;
        }
        Ok(at)
    }
}
