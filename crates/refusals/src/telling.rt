// The number, the part and the place of each refusal.
ghost use Rattle.std.specs.Prelude.{◌≡◌};
ghost use Rattle.questions.specs.Placed.{code};
ghost use Rattle.refusals.specs.Refusals.{plain, told, told_step, told_swap};

use crate::{Part, Refusal, Told};
use questions::placed::{Place, Placed};
use rewriting::reduce::StepFault;
use worksheet::fault::{ReplayFault, SwapFault};

// A refusal without the step of a replay.
fn plain(number: u8, part: Part, place: usize) -> Told
    ensures { result ≡ plain number part place }
{
    Told {
        number,
        part,
        place,
        step: None,
    }
}

// A place as the number by which it is told.
fn code(place: Place) -> usize
    ensures { result ≡ code place }
{
    usize::from(u16::from(place))
}

// A step that is not made, or a pair that cannot be formed.
impl From<Placed<StepFault>> for Told {
    ghost from_gives = { λ e r. r ≡ told_step e.fault (code e.place) };

    fn from(fault: Placed<StepFault>) -> Told {
        let place = code(fault.place);
        match fault.fault {
            StepFault::Spent => plain(6, Part::Step, place),
            StepFault::Overflow => plain(7, Part::Step, place),
        }
    }
}

// A swap of a replayed chain that is not made.
impl From<ReplayFault> for Told {
    ghost from_gives = { λ e r. r ≡ told_swap e.fault e.step };

    fn from(fault: ReplayFault) -> Told {
        let step = fault.step;
        match fault.fault {
            SwapFault::NoLine => plain(11, Part::Replay, step),
            SwapFault::Lacks => plain(12, Part::Replay, step),
            SwapFault::Overflow => plain(7, Part::Step, step),
        }
    }
}

impl From<Refusal> for Told {
    ghost from_gives = { λ e r. r ≡ told e };

    fn from(refusal: Refusal) -> Told {
        match refusal {
            Refusal::NotOpen => plain(1, Part::Register, 0),
            Refusal::NotSettled => plain(2, Part::Register, 0),
            Refusal::EmptySide => plain(3, Part::Enter, 0),
            Refusal::BookFull => plain(4, Part::Enter, 0),
            Refusal::Capacity => plain(5, Part::Settle, 0),
            Refusal::Step(fault) => Told::from(fault),
            Refusal::Full(place) => plain(8, Part::Adding, code(place)),
            Refusal::NoRoom(place) => plain(9, Part::Adding, code(place)),
            Refusal::ShortChain => plain(10, Part::Match, 0),
            Refusal::Replay(fault) => Told::from(fault),
        }
    }
}
