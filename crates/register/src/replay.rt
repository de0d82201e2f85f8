// Following a chain by the lines of a register.
ghost use Rattle.std.specs.Prelude.{◌≡◌};
ghost use Rattle.std.specs.Result.{result_err};
ghost use Rattle.register.specs.Calls.{Replay, Replayed, Did, replied, replaying};
ghost use Rattle.register.specs.View.{view};

use crate::register::Register;
use loads::Load;
use refusals::Refusal;
use worksheet::net::net;

// Where a chain ends, and for each article the end count less the start count: positive for goods received, negative for goods given.
#[derive(Clone, Copy)]
pub struct Outcome {
    pub end: Load,
    pub net: [i32; 8],
}

impl Register {
    // Follows a chain from a load, on an open register or a settled one: line k forward is k, backward -k.
    pub fn replay(&self, load: &Load, chain: &[i16]) -> Result<Outcome, Refusal>
        ensures did { Did (view self.now) (Replay load.now chain.now) (replied (λ x. Replayed x.end x.net) result) (view self.now) }
        ensures refused { result_err result ≡ result_err (replaying (view self.now) load.now chain.now) }
    {
        let end = self.lines().replay(chain, load)?;
        Ok(Outcome {
            end,
            net: net(load, &end),
        })
    }
}
