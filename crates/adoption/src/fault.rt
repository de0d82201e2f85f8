// Why a file is not adopted.
ghost use Rattle.std.specs.Prelude.{◌≡◌};
ghost use Rattle.adoption.specs.Tables.{as_table_fault};
ghost use Rattle.adoption.specs.declared.fault.TableFault.TheVariants.{Step};
ghost use Rattle.adoption.specs.declared.fault.AdoptFault.TheVariants as adopt;

use questions::placed::{Place, Placed};
use questions::question::Stop;
use rewriting::reduce::StepFault;
use worksheet::fault::ReplayFault;

// What is wrong with the file's equations and lines: there are more or fewer equations than the register has; one is not the register's own, by its
// number; the chain lengths pass the chain numbers at a line, or do not reach them; a line's chain cannot be followed; a line's chain ends elsewhere
// than it claims. Lines are counted from 1, the equations first.
#[derive(Clone, Copy)]
pub enum WorksheetFault {
    OtherCount,
    Differs(usize),
    TooHigh(usize),
    TooLow,
    Replay(usize, ReplayFault),
    Elsewhere(usize),
}

// What is wrong with the file's table. A rule that its line does not claim, one that does not fall, or one that is not reduced, by its place; a
// question that ends in two loads, or in which a step is not made, by its place.
#[derive(Clone, Copy)]
pub enum TableFault {
    NotClaimed(usize),
    NotFalling(usize),
    NotReduced(usize),
    Apart(Place),
    Step(Placed<StepFault>),
}

// What is wrong with a file that is well formed.
#[derive(Clone, Copy)]
pub enum AdoptFault {
    Worksheet(WorksheetFault),
    Table(TableFault),
}

impl From<Placed<StepFault>> for TableFault {
    ghost from_gives = { λ e r. r ≡ Step e };

    fn from(fault: Placed<StepFault>) -> TableFault {
        TableFault::Step(fault)
    }
}

impl From<Stop> for TableFault {
    ghost from_gives = { λ e r. r ≡ as_table_fault e };

    fn from(stop: Stop) -> TableFault {
        match stop {
            Stop::Forked(fork) => TableFault::Apart(fork.question.place),
            Stop::Step(fault) => TableFault::from(fault),
        }
    }
}

impl From<WorksheetFault> for AdoptFault {
    ghost from_gives = { λ e r. r ≡ adopt.Worksheet e };

    fn from(fault: WorksheetFault) -> AdoptFault {
        AdoptFault::Worksheet(fault)
    }
}

impl From<TableFault> for AdoptFault {
    ghost from_gives = { λ e r. r ≡ adopt.Table e };

    fn from(fault: TableFault) -> AdoptFault {
        AdoptFault::Table(fault)
    }
}
