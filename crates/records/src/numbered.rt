// Records of two loads and a number behind them. Which kinds of record are laid out so, their own files say.
ghost use Rattle.std.specs.Prelude.{◌≡◌, ◌+◌, ◌<◌, ◌≤◌, ℕ, List, length, MatchOption};
ghost use Rattle.worksheet.specs.declared.equation.Equation.{Equation};
ghost use Rattle.swapfile.specs.Bytes.{number_at};
ghost use Rattle.swapfile.specs.Equations.{equation_at};
ghost use Rattle.swapfile.specs.Numbered.{numbered_size, numbered_item};
ghost use Rattle.swapfile.specs.Sides.{sides_size, sides_zero};
ghost use Rattle.std.proofs.Common.{rules};

use crate::numbers::read_number;
use crate::record::Record;
use crate::sides::Sides;
use swapfile::items::{Found, NumberedItem};
use worksheet::equation::Equation;

// What two loads and a number make. A `From` of them would have to stand in `worksheet`, which knows nothing of files.
pub trait Numbered: Copy {
    // The value of the record that begins at a byte, by the file's format.
    ghost stored: { List ℕ → ℕ → Self };

    // The value of them.
    ghost of: { Equation → ℕ → Self };

    fn of(sides: Equation, number: u16) -> Self
        ensures { result ≡ of sides number };

    // it is made of the two loads that begin at the byte and the number behind them
    ghost made: { (b : List ℕ) (at : ℕ) → stored b at ≡ of (equation_at b at) (number_at b (at + sides_size b at)) };
}

// Two loads and the number behind them, which the bytes hold.
#[derive(Clone, Copy)]
struct Parts<'a> {
    sides: Sides<'a>,
    number: u16,
    ghost behind: { number ≡ number_at sides.left.bytes.now sides.right.end },
    ghost within: { sides.right.end + 2 ≤ length sides.left.bytes.now },
}

impl<'a> Parts<'a> {
    // Those of which the left load begins at a byte, if the bytes hold them all.
    fn find(bytes: &'a [u8], at: usize) -> Option<Parts<'a>>
        ensures { MatchOption result (length bytes.now < at + numbered_size bytes.now at) (λ x. (x.sides.left.bytes.now ≡ bytes.now) × (x.sides.left.at ≡ at)) }
    {
        let sides = Sides::find(bytes, at)?;
        let number = read_number(bytes, sides.right.end)?;
        Some(Parts { sides, number })
    }
}

impl<N: Numbered> Record for N {
    type Item = NumberedItem;

    const SMALLEST: usize = 4;

    ghost SMALLEST = { 4 };

    ghost size = { numbered_size };

    ghost zeros = { sides_zero };

    ghost item = { numbered_item };

    ghost value = { N.stored };

    ghost enough = { Prim.search rules };

    fn read(bytes: &[u8], at: usize) -> Option<Found<NumberedItem>> {
        let parts = Parts::find(bytes, at)?;
        let item = NumberedItem {
            sides: parts.sides.item(),
            number: parts.number,
        };
        Some(Found {
            byte: at,
            item,
            end: parts.sides.right.end + 2,
        })
    }

    fn zero_count(bytes: &[u8], at: usize) -> Option<usize> {
        Parts::find(bytes, at)?.sides.zero_count()
    }

    fn value(bytes: &[u8], at: usize) -> Option<N> {
        let parts = Parts::find(bytes, at)?;
        Some(N::of(parts.sides.read(), parts.number))
    }
}
