// The question that a pair of rules asks.
ghost use Rattle.std.specs.Prelude.{◌≡◌, ◌≤◌};
ghost use Rattle.rewriting.specs.Reducing.{sized};
ghost use Rattle.rewriting.specs.Swaps.{equation_of};
ghost use Rattle.rewriting.specs.Settled.{reduct};
ghost use Rattle.questions.specs.Topics.{peak};
ghost use Rattle.questions.specs.Questions.{form};

use crate::placed::{AtPlace, Place, Placed};
use crate::question::{Bridge, Question};
use loads::Load;
use rewriting::reduce::StepFault;
use worksheet::rule::Rule;

// What a rule makes of its peak with another, the smallest load that contains both left loads. The other left load has what they share, so only a
// count can be in the way of the exchange.
fn reduct(rule: &Rule, other: &Rule) -> Result<Load, StepFault>
    ensures { result ≡ sized (reduct (equation_of rule.now) (equation_of other.now)) }
{
    let shared = rule.left.shared(&other.left);
    other
        .left
        .exchange(&shared, &rule.right)
        .map_err(|_| StepFault::Overflow)
}

// The question that the rules at the places i and j ask, counted from 1. Both loads are formed before either is reduced.
pub(crate) fn pair(
    i: usize,
    rule: &Rule,
    j: usize,
    other: &Rule,
) -> Result<Question, Placed<StepFault>>
    requires { (i ≤ 128) × (j ≤ 128) }
    ensures { result ≡ form (peak i rule.now j other.now) }
{
    let place = Place::Pair(i as u8, j as u8);
    let first = reduct(rule, other).at(place)?;
    let second = reduct(other, rule).at(place)?;
    Ok(Question {
        place,
        first,
        second,
        bridge: Bridge::Peak(rule.line, other.line),
    })
}
