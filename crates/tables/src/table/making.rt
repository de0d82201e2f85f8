// Making, reading and emptying a table.
ghost use Rattle.std.specs.Prelude.{◌≡◌, ◌≤◌, true, [], length, IfOk};
ghost use Rattle.tables.specs.Citing.{citable};

use crate::table::Table;
use std::alloc::{AllocError, Global};
use worksheet::rule::Rule;

impl Table {
    // An empty table. It reserves the room for 128 rules, so that no other call wants memory.
    pub fn new(heap: Global) -> Result<Table, AllocError>
        ensures { IfOk result (λ t. t ≡ []) }
    {
        Ok(Table {
            rules: Vec::with_capacity(heap, 128)?,
        })
    }

    // The rules by place.
    pub fn rules(&self) -> &[Rule]
        ensures value { result.now ≡ self.now }
        ensures bound { length result.now ≤ 128 }
        ensures cited { citable result.now ≡ true }
    {
        self.rules.as_slice()
    }

    // Drops the rules.
    pub fn clear(&mut self)
        ensures { self.new ≡ [] }
    {
        self.rules.clear();
    }
}
