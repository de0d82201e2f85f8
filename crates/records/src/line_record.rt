// The record of an added line: its two loads and the length of its chain. No other file of the reader knows that this is its layout.
ghost use Rattle.swapfile.specs.Lines.{line_at};
ghost use Rattle.std.proofs.Common.{rules};

use crate::numbered::Numbered;
use worksheet::equation::Equation;
use worksheet::line::Line;

impl Numbered for Line {
    ghost stored = { line_at };

    ghost of = { λ sides number. record { claim = sides; length = number } };

    fn of(sides: Equation, number: u16) -> Line {
        Line {
            claim: sides,
            length: number,
        }
    }

    ghost made = { Prim.search rules };
}
