// The chain of a fork, written into a row.
ghost use Rattle.std.specs.Prelude.{◌≡◌, ◌+◌, ◌≤◌, ◌++◌, length, vec_len, vec_capacity};
ghost use Rattle.questions.specs.Questions.{Cited};
ghost use Rattle.questions.specs.Asking.{parting_of, fork_of};
ghost use Rattle.completion.specs.Adding.{between, chain_length, fork_chain, Cited-prop};

use questions::question::{Bridge, Fork};
use tables::table::Table;

// How many numbers lead from the first load of a question to the second.
fn span(bridge: &Bridge) -> usize
    ensures { result ≡ length (between bridge.now) }
{
    match bridge {
        Bridge::Forward(_) | Bridge::Backward(_) => 1,
        Bridge::Peak(_, _) => 2,
    }
}

// Writes the numbers that lead from the first load of a question to the second.
fn cross(bridge: &Bridge, row: &mut [i16])
    requires cited { Cited bridge.now }
    requires long { length row.old ≡ length (between bridge.now) }
    ensures { row.new ≡ between bridge.now }
{
    match *bridge {
        Bridge::Forward(k) => row[0] = k as i16,
        Bridge::Backward(k) => row[0] = -(k as i16),
        Bridge::Peak(i, j) => {
            row[0] = -(i as i16);
            row[1] = j as i16;
        }
    }
}

// How many numbers the chain of a fork has.
pub(crate) fn chain_length(fork: &Fork) -> usize
    ensures { result ≡ chain_length fork.now }
{
    fork.first.steps as usize + (span(&fork.question.bridge) + fork.second.steps as usize)
}

// A fork of a table, whose steps the table leads again, and whose lines a chain can cite.
#[derive(Clone, Copy)]
pub(crate) struct Traced<'a> {
    pub(crate) table: &'a Table,
    pub(crate) fork: &'a Fork,
    ghost counted: { fork_of (parting_of table.now fork.now) ≡ fork.now },
    ghost cited: { Cited fork.now.question.bridge } by { Cited-prop fork.now.question.bridge },
}

impl Traced<'_> {
    // Writes the chain: from the first end of the fork back to its first load, over to its second load, and on to its second end.
    fn write(&self, row: &mut [i16])
        requires { length row.old ≡ chain_length self.now.fork.now }
        ensures { row.new ≡ fork_chain self.now.table.now self.now.fork.now }
    {
        let question = &self.fork.question;
        let start = self.fork.first.steps as usize;
        let end = start + span(&question.bridge);
        self.table.undo(&question.first, &mut row[0..start]);
        cross(&question.bridge, &mut row[start..end]);
        self.table.follow(&question.second, &mut row[end..]);
    }

    // Adds the chain at the end of a row that has room for it.
    pub(crate) fn push(&self, row: &mut Vec<i16>)
        requires { vec_len row.old + chain_length self.now.fork.now ≤ vec_capacity row.old }
        ensures items { row.new.items ≡ row.old.items ++ fork_chain self.now.table.now self.now.fork.now }
        ensures len { vec_len row.new ≡ vec_len row.old + chain_length self.now.fork.now }
        ensures capacity { vec_capacity row.old ≤ vec_capacity row.new }
    {
        let start = row.len();
        row.resize(start + chain_length(self.fork), 0).unwrap();
        self.write(&mut row.as_mut_slice()[start..]);
    }
}
