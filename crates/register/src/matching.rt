// Whether one load can be turned into another.
ghost use Rattle.std.specs.Prelude.{◌≡◌, ◌≤◌, ◌++◌, length, take, drop, IfOk};
ghost use Rattle.std.specs.Result.{result_err};
ghost use Rattle.tables.specs.Trails.{forward, undo, trail, over_front, over_back};
ghost use Rattle.register.specs.Calls.{Match, Matched, Did, replied, matching};
ghost use Rattle.register.specs.Lent.{told_verdict, ChainKept};
ghost use Rattle.register.specs.Promises.{MatchIsRight};
ghost use Rattle.register.specs.View.{view};

use crate::register::Register;
use crate::verdict::Verdict;
use loads::Load;
use questions::placed::{AtPlace, Place};
use refusals::Refusal;
use rewriting::reduce::reduce;
use tables::table::Table;

// Writes over a row the line numbers of so many steps from the first load, forward, and then those from the second load, backward.
fn write_between(table: &Table, first: &Load, second: &Load, steps: usize, row: &mut [i16])
    requires { steps ≤ length row.old }
    ensures { row.new ≡ over_front (forward (trail table.now (length (take steps row.old)) first.now)) (take steps row.old) ++ over_back (undo (forward (trail table.now (length (drop steps row.old)) second.now))) (drop steps row.old) }
{
    table.follow(first, &mut row[0..steps]);
    table.undo(second, &mut row[steps..]);
}

impl Register {
    // Reduces the first load, then the second, within one budget, and says whether swaps of the book join them. When they do, the first places of the
    // lent chain have the chain that leads from the first to the second; no other place is written.
    pub fn match_loads(
        &self,
        first: &Load,
        second: &Load,
        chain: &mut [i16],
        budget: u32,
    ) -> Result<Verdict, Refusal>
        ensures did { Did (view self.now) (Match first.now second.now (length chain.old) budget) (replied (λ v. Matched (told_verdict v chain.new)) result) (view self.now) }
        ensures refused { result_err result ≡ result_err (matching (view self.now) first.now second.now (length chain.old) budget) }
        ensures kept { ChainKept result chain.old chain.new }
        ensures right { IfOk result (λ v. MatchIsRight (view self.now) first.now second.now (told_verdict v chain.new)) }
    {
        if !self.settled {
            return Err(Refusal::NotSettled);
        }
        let table = self.workings.table();
        let one = reduce(table.rules(), first, budget).at(Place::Argument(1))?;
        let two = reduce(table.rules(), second, budget - one.steps).at(Place::Argument(2))?;
        let steps = one.steps + two.steps;
        let same = one.end == two.end;
        if !same {
            return Ok(Verdict::Different(steps));
        }
        if steps as usize > chain.len() {
            return Err(Refusal::ShortChain);
        }
        write_between(
            table,
            first,
            second,
            one.steps as usize,
            &mut chain[0..steps as usize],
        );
        Ok(Verdict::Equal(steps))
    }
}
