// Adding the rule of a question whose loads end apart.
ghost use Rattle.std.specs.Prelude.{◌≡◌, length};
ghost use Rattle.questions.specs.Questions.{Cited};
ghost use Rattle.questions.specs.Asking.{parting_of, fork_of};
ghost use Rattle.completion.specs.States.{held, answered, leaves};
ghost use Rattle.completion.specs.Adding.{oriented_fork};
ghost use Rattle.completion.specs.Rounds.{forked};

use crate::chaining::chain_length;
use crate::fault::RoundFault;
use crate::task::Task;
use crate::workings::Workings;
use orders::order::{Order, higher};
use questions::question::Fork;
use std::ops::ControlFlow;
use worksheet::rule::Rule;

// The fork with the higher end first.
fn oriented<O: Order>(order: &O, fork: &Fork) -> Fork
    ensures { result ≡ oriented_fork (O.above order.now) fork.now }
{
    if higher(order, &fork.first.end, &fork.second.end) {
        *fork
    } else {
        fork.turned()
    }
}

impl Workings {
    // Adds the rule of a fork to the table, the higher end to the other, and its line to the worksheet. What it asks of the fork is no ghost field of
    // `Fork`, for the reason that stands at `note`.
    pub(crate) fn add<O: Order>(
        &mut self,
        task: &Task<'_, O>,
        fork: &Fork,
    ) -> Result<ControlFlow<u32, u32>, RoundFault>
        requires counted { fork_of (parting_of (held self.old).table fork.now) ≡ fork.now }
        requires cited { Cited fork.now.question.bridge }
        ensures value { result ≡ answered (forked (O.above task.now.order.now) task.now.capacity.rules (length task.now.book.now) fork.now (held self.old)) }
        ensures after { held self.new ≡ leaves (held self.old) (forked (O.above task.now.order.now) task.now.capacity.rules (length task.now.book.now) fork.now (held self.old)) }
    {
        let fork = oriented(task.order, fork);
        let left = fork.first.end;
        let kept = self.table.kept(&left);
        if kept >= task.capacity.rules {
            return Err(RoundFault::Full(fork.question.place));
        }
        if !self.has_room(chain_length(&fork)) {
            return Err(RoundFault::NoRoom(fork.question.place));
        }
        self.note(&fork);
        let line = (task.book.equations().len() + self.lines.len()) as u16;
        self.table.remove(&left);
        let rule = Rule {
            left,
            right: fork.second.end,
            line,
        };
        self.table.put(task.order, rule).unwrap();
        Ok(ControlFlow::Continue(fork.left))
    }
}
