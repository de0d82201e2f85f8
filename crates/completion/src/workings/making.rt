// Making, reading and emptying the workings of a register.
ghost use Rattle.std.specs.Prelude.{◌≡◌, IfOk};
ghost use Rattle.completion.specs.States.{blank, held, lines_of, chain_of};

use crate::workings::Workings;
use std::alloc::{AllocError, Global};
use tables::table::Table;
use worksheet::line::Line;

impl Workings {
    // Workings without a rule or a line. They reserve all the room that they can ever need, so that no other call wants memory.
    pub fn new(heap: Global) -> Result<Workings, AllocError>
        ensures { IfOk result (λ w. held w ≡ blank) }
    {
        Ok(Workings {
            table: Table::new(heap)?,
            lines: Vec::with_capacity(heap, 512)?,
            chain: Vec::with_capacity(heap, 4096)?,
        })
    }

    // The table.
    pub fn table(&self) -> &Table
        ensures { result.now ≡ self.now.table }
    {
        &self.table
    }

    // The added lines.
    pub fn lines(&self) -> &[Line]
        ensures { result.now ≡ lines_of self.now }
    {
        self.lines.as_slice()
    }

    // The numbers of all chains, in the order of the lines.
    pub fn chain(&self) -> &[i16]
        ensures { result.now ≡ chain_of self.now }
    {
        self.chain.as_slice()
    }

    // Drops the table and the added lines.
    pub fn clear(&mut self)
        ensures { held self.new ≡ blank }
    {
        self.table.clear();
        self.lines.clear();
        self.chain.clear();
    }
}
