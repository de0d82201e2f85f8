// Orders as a script names them.
ghost use Rattle.swaps.specs.Bases.{base_above, base_laws};

use crate::notation::LETTERS;
use crate::numbers::read_number;
use crate::words::Words;
use loads::Load;
use orders::bulk::Bulk;
use orders::listed::Listed;
use orders::named::{house, report};
use orders::order::Order;
use orders::split::{Marks, Split};
use orders::weights::{WeightRow, Weights};
use refusals::Refusal;
use register::register::Register;
use register::settle::Counts;
use std::cmp::Ordering;

// An order that others are laid over.
#[derive(Clone, Copy)]
pub(crate) enum Base {
    Listed,
    Bulk,
}

impl Order for Base {
    ghost above = { base_above };

    ghost laws = { base_laws };

    fn compare(&self, a: &Load, b: &Load) -> Ordering {
        match self {
            Base::Listed => Listed.compare(a, b),
            Base::Bulk => Bulk.compare(a, b),
        }
    }
}

// An order that a script names.
#[derive(Clone, Copy)]
pub(crate) enum Chosen {
    Plain(Base),
    Report,
    House,
    Weights(Weights<Base>),
    Split(Split<Base, Base>),
}

// The order of this name.
fn read_base(word: &[u8]) -> Option<Base> {
    match word {
        b"listed" => Some(Base::Listed),
        b"bulk" => Some(Base::Bulk),
        _ => None,
    }
}

// Eight weights from 0 to 65,535, parted by commas.
fn read_weights(text: &[u8]) -> Option<WeightRow> {
    let mut row = [0; 8];
    let mut parts = text.split(|byte| *byte == b',');
    for weight in &mut row {
        *weight = read_number(parts.next()?)?;
    }
    parts.next().is_none().then_some(WeightRow(row))
}

// The marked articles: letters in rising order, each at most once.
fn read_marks(text: &[u8]) -> Option<Marks> {
    let mut marks = [false; 8];
    let mut rest = text;
    for (mark, letter) in marks.iter_mut().zip(LETTERS) {
        if let Some(after) = rest.strip_prefix(&[letter]) {
            *mark = true;
            rest = after;
        }
    }
    rest.is_empty().then_some(Marks(marks))
}

// The order that the next words name.
pub(crate) fn read_order(words: &mut Words) -> Option<Chosen> {
    match words.next()? {
        b"report" => Some(Chosen::Report),
        b"house" => Some(Chosen::House),
        b"weights" => Some(Chosen::Weights(Weights {
            row: read_weights(words.next()?)?,
            below: read_base(words.next()?)?,
        })),
        b"split" => Some(Chosen::Split(Split {
            marks: read_marks(words.next()?)?,
            first: read_base(words.next()?)?,
            second: read_base(words.next()?)?,
        })),
        name => read_base(name).map(Chosen::Plain),
    }
}

// Settles a register under the order that was named. One order over all five would be no plainer: its relation, its laws and its comparing would each
// go through the five cases that stand here once. It proved, and a settling took 1 to 5 % longer.
pub(crate) fn settle_by(
    register: &mut Register,
    order: Chosen,
    capacity: u32,
    budget: u32,
) -> Result<Counts, Refusal> {
    match order {
        Chosen::Plain(base) => register.settle(&base, capacity, budget),
        Chosen::Report => register.settle(&report(), capacity, budget),
        Chosen::House => register.settle(&house(), capacity, budget),
        Chosen::Weights(weights) => register.settle(&weights, capacity, budget),
        Chosen::Split(split) => register.settle(&split, capacity, budget),
    }
}
