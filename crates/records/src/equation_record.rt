// The record of an equation: its two loads.
ghost use Rattle.swapfile.specs.Equations.{equation_size, equation_item, equation_at};
ghost use Rattle.swapfile.specs.Sides.{sides_zero};
ghost use Rattle.std.proofs.Common.{rules};

use crate::record::Record;
use crate::sides::Sides;
use swapfile::items::{EquationItem, Found};
use worksheet::equation::Equation;

impl Record for Equation {
    type Item = EquationItem;

    const SMALLEST: usize = 2;

    ghost SMALLEST = { 2 };

    ghost size = { equation_size };

    ghost zeros = { sides_zero };

    ghost item = { equation_item };

    ghost value = { equation_at };

    ghost enough = { Prim.search rules };

    fn read(bytes: &[u8], at: usize) -> Option<Found<EquationItem>> {
        let sides = Sides::find(bytes, at)?;
        Some(Found {
            byte: at,
            item: sides.item(),
            end: sides.right.end,
        })
    }

    fn zero_count(bytes: &[u8], at: usize) -> Option<usize> {
        Sides::find(bytes, at)?.zero_count()
    }

    fn value(bytes: &[u8], at: usize) -> Option<Equation> {
        let sides = Sides::find(bytes, at)?;
        Some(sides.read())
    }
}
