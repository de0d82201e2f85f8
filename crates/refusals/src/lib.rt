// Why a call is refused, and what is told of it.
#![tactic(auto)]

mod faults;
mod telling;
mod words;

use questions::placed::{Place, Placed};
use rewriting::reduce::StepFault;
use worksheet::fault::ReplayFault;

// The part of the register that refuses.
#[derive(Clone, Copy, PartialEq, Eq, Debug)]
pub enum Part {
    Register,
    Enter,
    Settle,
    Step,
    Adding,
    Match,
    Replay,
}

// Why a call is refused.
#[derive(Clone, Copy, PartialEq, Eq, Debug)]
pub enum Refusal {
    // the register is settled
    NotOpen,
    // the register is open
    NotSettled,
    // a side of the equation is empty
    EmptySide,
    // the book has 32 equations
    BookFull,
    // the capacity is 0 or above 128
    Capacity,
    // a step is not made, or a pair cannot be formed
    Step(Placed<StepFault>),
    // the table is at its capacity
    Full(Place),
    // lines or chain numbers would pass their limit
    NoRoom(Place),
    // the loads are equal, and the chain is too short
    ShortChain,
    // a chain cannot be followed
    Replay(ReplayFault),
}

// What is told of a refusal: its number, the part that refuses, the place, and the step that a replay keeps. Number and place are the ones
// that are printed and that docs/REFUSALS.md lists, the place 0 where there is none; in the code a refusal is a `Refusal`.
#[derive(Clone, Copy, PartialEq, Eq, Debug)]
pub struct Told {
    pub number: u8,
    pub part: Part,
    pub place: usize,
    pub step: Option<usize>,
}
