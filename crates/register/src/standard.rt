// The standard load of a family.
ghost use Rattle.std.specs.Prelude.{◌≡◌, OnErr, OnOk};
ghost use Rattle.std.specs.Result.{result_err};
ghost use Rattle.register.specs.Calls.{Standard, Reduced, Did, replied, standardizing};
ghost use Rattle.register.specs.Promises.{StandardOf};
ghost use Rattle.register.specs.View.{view};

use crate::register::Register;
use loads::Load;
use questions::placed::{AtPlace, Place};
use refusals::Refusal;
use rewriting::reduce::reduce;

impl Register {
    // Replaces a load by the standard load of its family, and gives the steps. Refused, the load stays.
    pub fn standard(&self, load: &mut Load, budget: u32) -> Result<u32, Refusal>
        ensures did { Did (view self.now) (Standard load.old budget) (replied (λ n. Reduced load.new n) result) (view self.now) }
        ensures refused { result_err result ≡ result_err (standardizing (view self.now) load.old budget) }
        ensures stays { OnErr result (load.new ≡ load.old) }
        ensures family { OnOk result (StandardOf (view self.now) load.old load.new) }
    {
        if !self.settled {
            return Err(Refusal::NotSettled);
        }
        let reduced = reduce(self.workings.table().rules(), load, budget).at(Place::Argument(1))?;
        *load = reduced.end;
        Ok(reduced.steps)
    }
}
