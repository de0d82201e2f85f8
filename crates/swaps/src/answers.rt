// Answers in words.
use crate::memory::NoMemory;
use crate::notation::Letters;
use loads::Load;
use refusals::{Refusal, Told};
use register::register::Register;
use register::replay::Outcome;
use register::settle::Counts;
use register::verdict::Verdict;
use std::fmt;
use std::fmt::Write;
use worksheet::equation::Equation;
use worksheet::rule::Rule;

// An equation, as it is printed.
#[derive(Clone, Copy)]
struct Sides(Equation);

impl fmt::Display for Sides {
    fn fmt<W: fmt::Write>(&self, f: &mut fmt::Formatter<W>) -> fmt::Result {
        let left = Letters(self.0.left);
        let right = Letters(self.0.right);
        write!(f, "{left} = {right}")
    }
}

// Numbers, as they are printed: each with a space before it.
#[derive(Clone, Copy)]
struct Spaced<'a, N> {
    numbers: &'a [N],
}

impl<'a, N: fmt::Display> fmt::Display for Spaced<'a, N> {
    fn fmt<W: fmt::Write>(&self, f: &mut fmt::Formatter<W>) -> fmt::Result {
        for number in self.numbers {
            write!(f, " {number}")?;
        }
        Ok(())
    }
}

// A chain, as it is printed: its numbers parted by spaces, or - where there are none.
#[derive(Clone, Copy)]
struct Chain<'a>(&'a [i16]);

impl<'a> fmt::Display for Chain<'a> {
    fn fmt<W: fmt::Write>(&self, f: &mut fmt::Formatter<W>) -> fmt::Result {
        if self.0.is_empty() {
            return write!(f, " -");
        }
        let numbers = Spaced { numbers: self.0 };
        write!(f, "{numbers}")
    }
}

// An equation that was entered, with its number.
#[derive(Clone, Copy)]
pub(crate) struct Entered {
    pub(crate) number: usize,
    pub(crate) equation: Equation,
}

impl fmt::Display for Entered {
    fn fmt<W: fmt::Write>(&self, f: &mut fmt::Formatter<W>) -> fmt::Result {
        let number = self.number;
        let sides = Sides(self.equation);
        write!(f, "equation {number}: {sides}")
    }
}

// What a settling counted.
#[derive(Clone, Copy)]
pub(crate) struct Settled(pub(crate) Counts);

impl fmt::Display for Settled {
    fn fmt<W: fmt::Write>(&self, f: &mut fmt::Formatter<W>) -> fmt::Result {
        let rules = self.0.rules;
        let lines = self.0.lines;
        let steps = self.0.steps;
        write!(f, "settled: {rules} rules, {lines} lines, {steps} steps")
    }
}

// A register is open again.
#[derive(Clone, Copy)]
pub(crate) struct Reopened;

impl fmt::Display for Reopened {
    fn fmt<W: fmt::Write>(&self, f: &mut fmt::Formatter<W>) -> fmt::Result {
        write!(f, "reopened")
    }
}

// A standard load, and the steps to it.
#[derive(Clone, Copy)]
pub(crate) struct Reduced {
    pub(crate) standard: Load,
    pub(crate) steps: u32,
}

impl fmt::Display for Reduced {
    fn fmt<W: fmt::Write>(&self, f: &mut fmt::Formatter<W>) -> fmt::Result {
        let standard = Letters(self.standard);
        let steps = self.steps;
        write!(f, "standard: {standard}, {steps} steps")
    }
}

// A verdict, and the row whose first places hold its chain: it was lent to the register, whose verdict tells how many.
#[derive(Clone, Copy)]
pub(crate) struct Matched<'a> {
    pub(crate) verdict: Verdict,
    pub(crate) row: &'a [i16],
}

impl<'a> fmt::Display for Matched<'a> {
    fn fmt<W: fmt::Write>(&self, f: &mut fmt::Formatter<W>) -> fmt::Result {
        match self.verdict {
            Verdict::Equal(steps) => {
                let chain = Chain(self.row.get(..steps as usize).unwrap_or(self.row));
                write!(f, "equal: {steps} steps, chain{chain}")
            }
            Verdict::Different(steps) => write!(f, "different: {steps} steps"),
        }
    }
}

// Where a chain ends, and what it came to.
#[derive(Clone, Copy)]
pub(crate) struct Replayed(pub(crate) Outcome);

impl fmt::Display for Replayed {
    fn fmt<W: fmt::Write>(&self, f: &mut fmt::Formatter<W>) -> fmt::Result {
        let end = Letters(self.0.end);
        let net = Spaced {
            numbers: self.0.net.as_slice(),
        };
        write!(f, "end: {end}, net{net}")
    }
}

// A line of the table.
#[derive(Clone, Copy)]
struct Row {
    place: usize,
    rule: Rule,
}

impl fmt::Display for Row {
    fn fmt<W: fmt::Write>(&self, f: &mut fmt::Formatter<W>) -> fmt::Result {
        let place = self.place;
        let left = Letters(self.rule.left);
        let right = Letters(self.rule.right);
        let line = self.rule.line;
        write!(f, "rule {place}: {left} -> {right}, line {line}")
    }
}

// Tells what a call gave, or why it is refused.
pub(crate) fn tell<T: fmt::Display + Drop>(
    answer: Result<T, Refusal>,
    out: &mut String,
) -> Result<(), NoMemory> {
    match answer.map_err(Told::from) {
        Ok(given) => writeln!(out, "{given}")?,
        Err(told) => writeln!(out, "{told}")?,
    }
    Ok(())
}

pub(crate) fn tell_table(register: &Register, out: &mut String) -> Result<(), NoMemory> {
    let rules = register.rules();
    if rules.is_empty() {
        writeln!(out, "no rules")?;
    }
    for (i, rule) in rules.iter().enumerate() {
        let row = Row {
            place: i + 1,
            rule: *rule,
        };
        writeln!(out, "{row}")?;
    }
    Ok(())
}

// The line with a number, if there is one.
fn tell_line(register: &Register, number: usize, out: &mut String) -> Result<(), NoMemory> {
    let Some(claim) = register.claim(number) else {
        return Ok(());
    };
    let sides = Sides(claim);
    match register.chain(number).map(Chain) {
        Some(chain) => writeln!(out, "line {number}: {sides}, chain{chain}")?,
        None => writeln!(out, "line {number}: {sides}")?,
    }
    Ok(())
}

// Lines are asked for by number: a claim lies in the book or among the added lines, and no row holds them all.
pub(crate) fn tell_lines(register: &Register, out: &mut String) -> Result<(), NoMemory> {
    let count = register.line_count();
    if count == 0 {
        writeln!(out, "no lines")?;
    }
    for number in 1..=count {
        tell_line(register, number, out)?;
    }
    Ok(())
}
