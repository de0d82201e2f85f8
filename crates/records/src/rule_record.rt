// The record of a rule: its two loads and the number of its line.
ghost use Rattle.swapfile.specs.Rules.{rule_at};
ghost use Rattle.std.proofs.Common.{rules};

use crate::numbered::Numbered;
use worksheet::equation::Equation;
use worksheet::rule::Rule;

impl Numbered for Rule {
    ghost stored = { rule_at };

    ghost of = { λ sides number. record { left = sides.left; right = sides.right; line = number } };

    fn of(sides: Equation, number: u16) -> Rule {
        Rule {
            left: sides.left,
            right: sides.right,
            line: number,
        }
    }

    ghost made = { Prim.search rules };
}
