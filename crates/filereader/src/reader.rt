// Readers of a file.
ghost use Rattle.swapfile.specs.Layout.{Layout};

use crate::window::Window;
use std::marker::Model;
use worksheet::equation::Equation;
use worksheet::line::Line;
use worksheet::rule::Rule;

// A reader over the lent bytes of a file: a window on each section.
#[derive(Drop)]
pub struct Reader<'a> {
    pub equations: Window<'a, Equation>,
    pub rules: Window<'a, Rule>,
    pub lines: Window<'a, Line>,
    pub chain: Window<'a, i16>,
}

// To a contract a reader is the sections that its windows show.
impl<'a> Model for Reader<'a> {
    ghost Value = { Layout };

    ghost view = { λ r. record { equations = r.equations; rules = r.rules; lines = r.lines; chain = r.chain } };
}
