// Why a chain cannot be followed.
ghost use Rattle.std.specs.Prelude.{◌≡◌};
ghost use Rattle.worksheet.specs.Replay.{as_swap_fault};

use loads::exchange::ExchangeFault;

// Why one swap of a chain is not made: its number names no line, the load lacks what is taken out, or a count would pass 65,535.
#[derive(Clone, Copy, PartialEq, Eq, Debug)]
pub enum SwapFault {
    NoLine,
    Lacks,
    Overflow,
}

impl From<ExchangeFault> for SwapFault {
    ghost from_gives = { λ e r. r ≡ as_swap_fault e };

    fn from(fault: ExchangeFault) -> SwapFault {
        match fault {
            ExchangeFault::Lacks => SwapFault::Lacks,
            ExchangeFault::Overflow => SwapFault::Overflow,
        }
    }
}

// A swap of a chain that is not made, and its step, counted from 1.
#[derive(Clone, Copy, PartialEq, Eq, Debug)]
pub struct ReplayFault {
    pub step: usize,
    pub fault: SwapFault,
}
