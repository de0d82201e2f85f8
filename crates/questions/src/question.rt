// Questions and what comes of them.
ghost use Rattle.std.specs.Prelude.{◌≡◌};
ghost use Rattle.questions.specs.Questions.{turned_bridge};
ghost use Rattle.questions.specs.Asking.{turned_fork};
ghost use Rattle.questions.specs.declared.question.Stop.TheVariants.{Step};

use crate::placed::{Place, Placed};
use loads::Load;
use rewriting::reduce::{Reduced, StepFault};

// What leads from the first load of a question to the second: a line forward, a line backward, or the peak of two rules, of whose lines the first
// is cited backward and the second forward.
#[derive(Clone, Copy)]
pub enum Bridge {
    Forward(u16),
    Backward(u16),
    Peak(u16, u16),
}

// Two loads of which a round asks whether they end in one, and the place at which it is asked.
#[derive(Clone, Copy)]
pub struct Question {
    pub place: Place,
    pub first: Load,
    pub second: Load,
    pub bridge: Bridge,
}

// A question that ends in two loads, with the two reductions, and what is left of the budget.
#[derive(Clone, Copy)]
pub struct Fork {
    pub question: Question,
    pub first: Reduced,
    pub second: Reduced,
    pub left: u32,
}

// What ends a row of questions before its last: the first question that ends in two loads, or a step that cannot be made.
#[derive(Clone, Copy)]
pub enum Stop {
    Forked(Fork),
    Step(Placed<StepFault>),
}

impl From<Placed<StepFault>> for Stop {
    ghost from_gives = { λ e r. r ≡ Step e };

    fn from(fault: Placed<StepFault>) -> Stop {
        Stop::Step(fault)
    }
}

impl Bridge {
    // What leads from the second load to the first.
    fn turned(&self) -> Bridge
        ensures { result ≡ turned_bridge self.now }
    {
        match *self {
            Bridge::Forward(k) => Bridge::Backward(k),
            Bridge::Backward(k) => Bridge::Forward(k),
            Bridge::Peak(i, j) => Bridge::Peak(j, i),
        }
    }
}

impl Fork {
    // The fork with its two loads changed over.
    pub fn turned(&self) -> Fork
        ensures { result ≡ turned_fork self.now }
    {
        Fork {
            question: Question {
                place: self.question.place,
                first: self.question.second,
                second: self.question.first,
                bridge: self.question.bridge.turned(),
            },
            first: self.second,
            second: self.first,
            left: self.left,
        }
    }
}
