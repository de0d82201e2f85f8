// The reduction of a load to a standard one.
ghost use Rattle.std.specs.Prelude.{◌≡◌, ◌≤◌, IfOk};
ghost use Rattle.rewriting.specs.Reducing.{reduce, told};

use crate::search::search;
use loads::Load;
use worksheet::rule::Rule;

// A standard load, and the steps that led to it.
#[derive(Clone, Copy)]
pub struct Reduced {
    pub end: Load,
    pub steps: u32,
}

// Why a step is not made: the budget is spent, or a count would pass 65,535.
#[derive(Clone, Copy, PartialEq, Eq, Debug)]
pub enum StepFault {
    Spent,
    Overflow,
}

// Repeats search and step until no rule fits. Where one fits, the budget is checked first, then the new counts: the load has what the rule takes
// out, so only a count can be in the way of the exchange.
pub fn reduce(table: &[Rule], load: &Load, budget: u32) -> Result<Reduced, StepFault>
    ensures is { result ≡ told (reduce table.now budget load.now) }
    ensures within { IfOk result (λ d. d.steps ≤ budget) }
{
    let mut at = *load;
    let mut left = budget;
    while let Some(place) = search(table, &at) {
        if left == 0 {
            return Err(StepFault::Spent);
        }
        let rule = &table[place];
        let Ok(next) = at.exchange(&rule.left, &rule.right) else {
            return Err(StepFault::Overflow);
        };
        at = next;
        left -= 1;
    }
    Ok(Reduced {
        end: at,
        steps: budget - left,
    })
}
