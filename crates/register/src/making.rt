// Making a register.
ghost use Rattle.std.specs.Prelude.{◌≡◌, IfOk};
ghost use Rattle.register.specs.Contents.{new};
ghost use Rattle.register.specs.View.{view};

use crate::register::Register;
use completion::workings::Workings;
use std::alloc::{AllocError, Global};
use tables::book::Book;

impl Register {
    // An open register with an empty book. It reserves all the room that a register can ever need, so no other call wants memory.
    pub fn new(heap: Global) -> Result<Register, AllocError>
        ensures { IfOk result (λ g. view g ≡ new) }
    {
        Ok(Register {
            book: Book::new(heap)?,
            workings: Workings::new(heap)?,
            settled: false,
        })
    }
}
