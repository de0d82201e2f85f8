// The rounds that settle a book.
ghost use Rattle.std.specs.Prelude.{◌≡◌};
ghost use Rattle.completion.specs.States.{blank, held, answered, leaves};
ghost use Rattle.completion.specs.Rounds.{round, settle};

use crate::fault::RoundFault;
use crate::task::Task;
use crate::workings::Workings;
use crate::workings::changing::unfinished;
use orders::order::Order;
use questions::asking::ask_all;
use questions::question::Stop;
use std::ops::ControlFlow;

impl Workings {
    // One round: at the first equation or pair that ends in two loads, a rule is added; otherwise the first right load that some rule fits is
    // changed; otherwise the book is settled. It breaks off where the book is settled, and goes on where a line was added; each with what is left of
    // the budget. A refused round leaves everything as it was.
    pub fn round<O: Order>(
        &mut self,
        task: &Task<'_, O>,
        budget: u32,
    ) -> Result<ControlFlow<u32, u32>, RoundFault>
        ensures value { result ≡ answered (round (O.above task.now.order.now) task.now.capacity.rules task.now.book.now budget (held self.old)) }
        ensures after { held self.new ≡ leaves (held self.old) (round (O.above task.now.order.now) task.now.capacity.rules task.now.book.now budget (held self.old)) }
    {
        let equations = task.book.equations().len();
        let rules = self.table.rules();
        match ask_all(&self.table, task.book, budget) {
            Ok(left) => match unfinished(rules) {
                Some(found) => self.change(equations, &found, left),
                None => Ok(ControlFlow::Break(left)),
            },
            Err(Stop::Forked(fork)) => self.add(task, &fork),
            Err(Stop::Step(fault)) => Err(RoundFault::Step(fault)),
        }
    }

    // Settles a book, from an empty table: rounds until one is settled, with one budget for all. Gives the steps made. Where a round is refused, the
    // table and the lines are dropped.
    pub fn settle<O: Order>(&mut self, task: &Task<'_, O>, budget: u32) -> Result<u32, RoundFault>
        ensures value { result ≡ answered (settle (O.above task.now.order.now) task.now.capacity.rules task.now.book.now budget) }
        ensures after { held self.new ≡ leaves blank (settle (O.above task.now.order.now) task.now.capacity.rules task.now.book.now budget) }
    {
        self.clear();
        let mut left = budget;
        loop {
            match self.round(task, left) {
                Ok(ControlFlow::Continue(rest)) => left = rest,
                Ok(ControlFlow::Break(rest)) => return Ok(budget.saturating_sub(rest)),
                Err(fault) => {
                    self.clear();
                    return Err(fault);
                }
            }
        }
    }
}
