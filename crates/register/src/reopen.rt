// Going back to the open register.
ghost use Rattle.register.specs.Calls.{Reopen, Reopened, Did, replied};
ghost use Rattle.register.specs.View.{view};

use crate::register::Register;
use refusals::Refusal;

impl Register {
    // Drops the table and the added lines.
    pub fn reopen(&mut self) -> Result<(), Refusal>
        ensures { Did (view self.old) Reopen (replied (λ _. Reopened) result) (view self.new) }
    {
        if !self.settled {
            return Err(Refusal::NotSettled);
        }
        self.workings.clear();
        self.settled = false;
        Ok(())
    }
}
