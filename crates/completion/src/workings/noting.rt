// Noting a line of the worksheet with its chain.
ghost use Rattle.std.specs.Prelude.{◌≡◌, true, [], ◌∷◌, ◌++◌, length};
ghost use Rattle.questions.specs.Questions.{Cited};
ghost use Rattle.questions.specs.Asking.{parting_of, fork_of};
ghost use Rattle.completion.specs.Room.{roomy};
ghost use Rattle.completion.specs.States.{held};
ghost use Rattle.completion.specs.Adding.{derived, fork_chain};

use crate::chaining::{Traced, chain_length};
use crate::workings::Workings;
use questions::question::Fork;
use worksheet::equation::Equation;
use worksheet::line::Line;

impl Workings {
    // There is room for a line with so many chain numbers.
    pub(crate) fn has_room(&self, numbers: usize) -> bool
        ensures { result ≡ roomy (held self.now).added numbers }
    {
        self.lines.len() < 512 && numbers <= 4096 - self.chain.len()
    }

    // Adds the line of a fork: from its first end to its second, with its chain.
    // What it asks of the fork is no ghost field of `Fork`: the definitions make forks, and would owe a proof for each.
    pub(crate) fn note(&mut self, fork: &Fork)
        requires counted { fork_of (parting_of (held self.old).table fork.now) ≡ fork.now }
        requires cited { Cited fork.now.question.bridge }
        requires room { roomy (held self.old).added (length (fork_chain (held self.old).table fork.now)) ≡ true }
        ensures table { self.new.table ≡ self.old.table }
        ensures added { (held self.new).added ≡ (held self.old).added ++ (derived (parting_of (held self.old).table fork.now) ∷ []) }
    {
        let traced = Traced {
            table: &self.table,
            fork,
        };
        traced.push(&mut self.chain);
        self.lines.push_reserved(Line {
            claim: Equation {
                left: fork.first.end,
                right: fork.second.end,
            },
            length: chain_length(fork) as u16,
        });
    }
}
