// The line numbers of a reduction, written into a lent row.
ghost use Rattle.std.specs.Prelude.{◌≡◌, ◌≤◌, length, IfSome};
ghost use Rattle.tables.specs.Trails.{stride, trail, forward, undo, over_front, over_back};

use crate::stride::Stride;
use crate::table::Table;
use loads::Load;
use rewriting::search::search;

impl Table {
    // The step of the first rule that fits, if there is one and the new counts are in range.
    fn stride(&self, load: &Load) -> Option<Stride>
        ensures is { result ≡ stride self.now load.now }
        ensures cited { IfSome result (λ s. s.line ≤ 544) }
    {
        let place = search(self.rules.as_slice(), load)?;
        let rule = self.rules[place];
        let next = load.exchange(&rule.left, &rule.right).ok()?;
        Some(Stride {
            line: rule.line,
            load: next,
        })
    }

    // Writes the line numbers of the steps from a load, each forward, from the row's front on: as many as the row has places, or all where they are
    // fewer.
    pub fn follow(&self, load: &Load, row: &mut [i16])
        ensures { row.new ≡ over_front (forward (trail self.now (length row.old) load.now)) row.old }
    {
        let mut at = *load;
        for place in row.iter_mut() {
            let Some(made) = self.stride(&at) else {
                return;
            };
            *place = made.line as i16;
            at = made.load;
        }
    }

    // Writes the line numbers of the same steps the other way round, each backward and the last first, up to the row's back. It stands beside `follow`:
    // one function for both would take the order of the places and the sign, and be no plainer than the two.
    pub fn undo(&self, load: &Load, row: &mut [i16])
        ensures { row.new ≡ over_back (undo (forward (trail self.now (length row.old) load.now))) row.old }
    {
        let mut at = *load;
        // By index: after `iter_mut().rev()` no proof knows what stands in the row.
        for i in (0..row.len()).rev() {
            let Some(made) = self.stride(&at) else {
                return;
            };
            row[i] = -(made.line as i16);
            at = made.load;
        }
    }
}
