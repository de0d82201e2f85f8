// Asking questions in order.
ghost use Rattle.std.specs.Prelude.{◌≡◌, ◌+◌, ◌≤◌, length};
ghost use Rattle.questions.specs.Topics.{entries, peaks_with, peaks, topics};
ghost use Rattle.questions.specs.Asking.{ask, ask_all, outcome};

use crate::pair::pair;
use crate::placed::{AtPlace, Place};
use crate::question::{Bridge, Fork, Question, Stop};
use rewriting::reduce::reduce;
use tables::book::Book;
use tables::table::Table;
use worksheet::equation::Equation;
use worksheet::rule::Rule;

// Reduces the first load of a question, then the second. Gives what is left of the budget, as the other functions do that ask. Rules and budget are
// no struct: the budget is another at each call, and what is left of it is the answer.
fn ask(rules: &[Rule], question: &Question, budget: u32) -> Result<u32, Stop>
    ensures { result ≡ outcome (ask rules.now budget question.now) }
{
    let first = reduce(rules, &question.first, budget).at(question.place)?;
    let after = budget - first.steps;
    let second = reduce(rules, &question.second, after).at(question.place)?;
    let left = after - second.steps;
    if first.end == second.end {
        return Ok(left);
    }
    Err(Stop::Forked(Fork {
        question: *question,
        first,
        second,
        left,
    }))
}

// The equations in entry order.
fn ask_equations(rules: &[Rule], book: &[Equation], budget: u32) -> Result<u32, Stop>
    requires { length book.now ≤ 32 }
    ensures { result ≡ outcome (ask_all rules.now budget (entries 1 book.now)) }
{
    let mut left = budget;
    for (i, equation) in book.iter().enumerate() {
        let number = (i + 1) as u16;
        let question = Question {
            place: Place::Entry(number),
            first: equation.left,
            second: equation.right,
            bridge: Bridge::Forward(number),
        };
        left = ask(rules, &question, left)?;
    }
    Ok(left)
}

// The pairs of the rule at the place i, counted from 1, with each of the rules after it.
fn ask_row(rules: &[Rule], i: usize, rule: &Rule, after: &[Rule], budget: u32) -> Result<u32, Stop>
    requires { i + length after.now ≤ 128 }
    ensures { result ≡ outcome (ask_all rules.now budget (peaks_with i rule.now (i + 1) after.now)) }
{
    let mut left = budget;
    for (j, other) in after.iter().enumerate() {
        if rule.left.shares(&other.left) {
            let question = pair(i, rule, i + 1 + j, other)?;
            left = ask(rules, &question, left)?;
        }
    }
    Ok(left)
}

// The pairs of places i < j, by i and then j, whose left loads share an article.
fn ask_pairs(rules: &[Rule], budget: u32) -> Result<u32, Stop>
    requires { length rules.now ≤ 128 }
    ensures { result ≡ outcome (ask_all rules.now budget (peaks 1 rules.now)) }
{
    let mut left = budget;
    for (i, rule) in rules.iter().enumerate() {
        left = ask_row(rules, i + 1, rule, &rules[i + 1..], left)?;
    }
    Ok(left)
}

// Asks about the equations of a book, then about the pairs of a table, up to the first question that ends in two loads.
pub fn ask_all(table: &Table, book: &Book, budget: u32) -> Result<u32, Stop>
    ensures { result ≡ outcome (ask_all table.now budget (topics book.now table.now)) }
{
    let rules = table.rules();
    let left = ask_equations(rules, book.equations(), budget)?;
    ask_pairs(rules, left)
}
