// Making a table from the book.
ghost use Rattle.std.specs.Prelude.{◌≡◌};
ghost use Rattle.std.specs.Result.{result_err};
ghost use Rattle.register.specs.Calls.{Settle, Counted, Did, replied, settling};
ghost use Rattle.register.specs.View.{view};

use crate::register::Register;
use completion::capacity::Capacity;
use completion::task::Task;
use orders::order::Order;
use refusals::Refusal;

// How many rules and lines a settled register has, and the steps that it took.
#[derive(Clone, Copy)]
pub struct Counts {
    pub rules: usize,
    pub lines: usize,
    pub steps: u32,
}

impl Register {
    // Settles an open register under an order. Refused, the register stays open as it was.
    pub fn settle<O: Order>(
        &mut self,
        order: &O,
        capacity: u32,
        budget: u32,
    ) -> Result<Counts, Refusal>
        ensures did { Did (view self.old) (Settle (O.above order.now) capacity budget) (replied (λ n. Counted n.rules n.lines n.steps) result) (view self.new) }
        ensures refused { result_err result ≡ result_err (settling (view self.old) (O.above order.now) capacity budget) }
    {
        if self.settled {
            return Err(Refusal::NotOpen);
        }
        let Ok(capacity) = Capacity::try_from(capacity as usize) else {
            return Err(Refusal::Capacity);
        };
        let task = Task {
            order,
            capacity,
            book: &self.book,
        };
        let steps = self.workings.settle(&task, budget)?;
        self.settled = true;
        Ok(Counts {
            rules: self.workings.table().rules().len(),
            lines: self.book.equations().len() + self.workings.lines().len(),
            steps,
        })
    }
}
