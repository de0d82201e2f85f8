// Reading the rules and the lines of a register.
ghost use Rattle.std.specs.Prelude.{◌≡◌, length};
ghost use Rattle.std.specs.Option.{option_map};
ghost use Rattle.worksheet.specs.Claims.{claimed};
ghost use Rattle.register.specs.Contents.{rules_in, lines_of, claim_at, chain_at};
ghost use Rattle.register.specs.View.{view};

use crate::register::Register;
use worksheet::equation::Equation;
use worksheet::lines::Lines;
use worksheet::rule::Rule;

impl Register {
    // The rules, by place; an open register has none.
    pub fn rules(&self) -> &[Rule]
        ensures { result.now ≡ rules_in (view self.now).sheet }
    {
        self.workings.table().rules()
    }

    // The lines by their numbers.
    pub(crate) fn lines(&self) -> Lines
        ensures { claimed result ≡ lines_of (view self.now) }
    {
        Lines {
            book: self.book.equations(),
            added: self.workings.lines(),
        }
    }

    // How many lines there are: the equations of the book and the added lines.
    pub fn line_count(&self) -> usize
        ensures { result ≡ length (lines_of (view self.now)) }
    {
        self.book.equations().len() + self.workings.lines().len()
    }

    // What the line with a number, counted from 1, claims.
    pub fn claim(&self, number: usize) -> Option<Equation>
        ensures { result ≡ claim_at (view self.now) number }
    {
        self.lines().claim_at(number.checked_sub(1)?)
    }

    // The chain of an added line by its number; an equation has none.
    pub fn chain(&self, number: usize) -> Option<&[i16]>
        ensures { option_map (λ x. x.now) result ≡ chain_at (view self.now) number }
    {
        let equations = self.book.equations().len();
        if number <= equations {
            return None;
        }
        self.workings.line_chain(number - (equations + 1))
    }
}
