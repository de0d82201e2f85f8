// Why a round is refused.
ghost use Rattle.std.specs.Prelude.{◌≡◌};
ghost use Rattle.completion.specs.declared.fault.RoundFault.TheVariants.{Step};

use questions::placed::{Place, Placed};
use rewriting::reduce::StepFault;

// A step is not made; the table is at its capacity; or the worksheet has no room for a line and its chain. Each at a place.
#[derive(Clone, Copy, PartialEq, Eq, Debug)]
pub enum RoundFault {
    Step(Placed<StepFault>),
    Full(Place),
    NoRoom(Place),
}

impl From<Placed<StepFault>> for RoundFault {
    ghost from_gives = { λ e r. r ≡ Step e };

    fn from(fault: Placed<StepFault>) -> RoundFault {
        RoundFault::Step(fault)
    }
}
