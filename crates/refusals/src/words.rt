// A refusal in words.
ghost use Rattle.std.specs.Prelude.{Some};
ghost use Rattle.refusals.specs.Refusals.{word, sentence};

use crate::{Part, Told};
use std::fmt;

impl fmt::Display for Part {
    ghost output = { λ p. Some (word p) };

    fn fmt<W: fmt::Write>(&self, f: &mut fmt::Formatter<W>) -> fmt::Result {
        match self {
            Part::Register => write!(f, "register"),
            Part::Enter => write!(f, "enter"),
            Part::Settle => write!(f, "settle"),
            Part::Step => write!(f, "step"),
            Part::Adding => write!(f, "adding"),
            Part::Match => write!(f, "match"),
            Part::Replay => write!(f, "replay"),
        }
    }
}

impl fmt::Display for Told {
    ghost output = { λ t. Some (sentence t) };

    fn fmt<W: fmt::Write>(&self, f: &mut fmt::Formatter<W>) -> fmt::Result {
        let number = self.number;
        let part = self.part;
        let place = self.place;
        match self.step {
            None => write!(f, "refused {number}: {part}, place {place}"),
            Some(step) => write!(f, "refused {number}: {part}, place {place}, step {step}"),
        }
    }
}
