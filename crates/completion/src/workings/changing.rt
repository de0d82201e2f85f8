// Putting the standard load of a right load in its place.
ghost use Rattle.std.specs.Prelude.{◌≡◌, ◌<◌, ◌≤◌, length, IfSome, slice_index_or};
ghost use Rattle.completion.specs.States.{held, answered, leaves};
ghost use Rattle.completion.specs.Changing.{unfinished, renewal};
ghost use Rattle.completion.specs.Rounds.{finished};

use crate::chaining::chain_length;
use crate::fault::RoundFault;
use crate::found::Found;
use crate::workings::Workings;
use questions::placed::{AtPlace, Place};
use questions::question::{Bridge, Fork, Question};
use rewriting::reduce::{Reduced, reduce};
use rewriting::search::search;
use std::ops::ControlFlow;
use worksheet::rule::Rule;

// The first rule whose right load some rule fits.
pub(crate) fn unfinished(rules: &[Rule]) -> Option<Found>
    ensures is { result ≡ unfinished rules.now 0 rules.now }
    ensures stands { IfSome result (λ f. (f.place < length rules.now) × (f.rule ≡ slice_index_or rules.now f.place f.rule)) }
{
    for (place, rule) in rules.iter().enumerate() {
        if search(rules, &rule.right).is_some() {
            return Some(Found { place, rule: *rule });
        }
    }
    None
}

// The change of a rule as a fork: its line leads from the left load, which stays, to the right load, which is reduced.
fn renewal(rule: &Rule, place: Place, reduced: &Reduced, left: u32) -> Fork
    ensures { result ≡ renewal rule.now place reduced.now left }
{
    Fork {
        question: Question {
            place,
            first: rule.left,
            second: rule.right,
            bridge: Bridge::Forward(rule.line),
        },
        first: Reduced {
            end: rule.left,
            steps: 0,
        },
        second: *reduced,
        left,
    }
}

impl Workings {
    // Puts the standard load of a rule's right load in its place, and notes the line. The book has so many equations.
    pub(crate) fn change(
        &mut self,
        equations: usize,
        found: &Found,
        budget: u32,
    ) -> Result<ControlFlow<u32, u32>, RoundFault>
        requires few { equations ≤ 32 }
        requires within { found.now.place < length (held self.old).table }
        requires stands { found.now.rule ≡ slice_index_or (held self.old).table found.now.place found.now.rule }
        ensures value { result ≡ answered (finished equations budget found.now (held self.old)) }
        ensures after { held self.new ≡ leaves (held self.old) (finished equations budget found.now (held self.old)) }
    {
        let rules = self.table.rules();
        let place = Place::RightLoad((found.place + 1) as u8);
        let reduced = reduce(rules, &found.rule.right, budget).at(place)?;
        let fork = renewal(&found.rule, place, &reduced, budget - reduced.steps);
        if !self.has_room(chain_length(&fork)) {
            return Err(RoundFault::NoRoom(place));
        }
        self.note(&fork);
        let line = (equations + self.lines.len()) as u16;
        let renewed = Rule {
            left: found.rule.left,
            right: reduced.end,
            line,
        };
        self.table.replace(found.place, renewed).unwrap();
        Ok(ControlFlow::Continue(fork.left))
    }
}
