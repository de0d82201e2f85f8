// Faults of the layers below, as refusals.
ghost use Rattle.std.specs.Prelude.{◌≡◌};
ghost use Rattle.refusals.specs.Refusals.{as_refusal};
ghost use Rattle.refusals.specs.declared.Refusal.TheVariants.{Replay, Step};

use crate::Refusal;
use completion::fault::RoundFault;
use questions::placed::Placed;
use rewriting::reduce::StepFault;
use worksheet::fault::ReplayFault;

impl From<ReplayFault> for Refusal {
    ghost from_gives = { λ e r. r ≡ Replay e };

    fn from(fault: ReplayFault) -> Refusal {
        Refusal::Replay(fault)
    }
}

impl From<Placed<StepFault>> for Refusal {
    ghost from_gives = { λ e r. r ≡ Step e };

    fn from(fault: Placed<StepFault>) -> Refusal {
        Refusal::Step(fault)
    }
}

impl From<RoundFault> for Refusal {
    ghost from_gives = { λ e r. r ≡ as_refusal e };

    fn from(fault: RoundFault) -> Refusal {
        match fault {
            RoundFault::Step(fault) => Refusal::Step(fault),
            RoundFault::Full(place) => Refusal::Full(place),
            RoundFault::NoRoom(place) => Refusal::NoRoom(place),
        }
    }
}
