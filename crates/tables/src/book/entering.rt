// Making, reading and filling a book.
ghost use Rattle.std.specs.Prelude.{◌≡◌, ◌+◌, ◌≤◌, [], ◌∷◌, ◌++◌, length, IfOk, if◌then◌else◌, Some, None, nat_lt};

use crate::book::Book;
use std::alloc::{AllocError, Global};
use worksheet::equation::Equation;

impl Book {
    // An empty book. It reserves the room for 32 equations, so that no other call wants memory.
    pub fn new(heap: Global) -> Result<Book, AllocError>
        ensures { IfOk result (λ b. b ≡ []) }
    {
        Ok(Book {
            equations: Vec::with_capacity(heap, 32)?,
        })
    }

    // The equations in entry order.
    pub fn equations(&self) -> &[Equation]
        ensures value { result.now ≡ self.now }
        ensures bound { length result.now ≤ 32 }
    {
        self.equations.as_slice()
    }

    // Adds an equation, and gives its number; none where 32 are held.
    pub fn enter(&mut self, equation: Equation) -> Option<usize>
        ensures value { result ≡ (if nat_lt (length self.old) 32 then Some (length self.old + 1) else None) }
        ensures after { self.new ≡ (if nat_lt (length self.old) 32 then self.old ++ (equation ∷ []) else self.old) }
    {
        if self.equations.len() >= 32 {
            return None;
        }
        self.equations.push_reserved(equation);
        Some(self.equations.len())
    }
}
