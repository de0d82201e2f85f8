// What a register holds.
ghost use Rattle.std.specs.Prelude.{◌≡◌, true, false, length};
ghost use Rattle.std.specs.List.{AllByRecursion};
ghost use Rattle.completion.specs.States.{held};
ghost use Rattle.soundness.specs.Sheets.{Small};
ghost use Rattle.register.specs.Guarantee.{Guaranteed};

use completion::workings::Workings;
use tables::book::Book;

// A book, and when it is settled a table and a worksheet. All room is reserved once, so that no later call wants memory.
// The flag stands beside the workings, since an open register keeps their room. There is no model: callers read the guarantee from the type.
#[derive(Drop)]
pub struct Register {
    pub(crate) book: Book,
    pub(crate) workings: Workings,
    pub(crate) settled: bool,
    // an open register has no rules and no added lines
    ghost bare: { settled ≡ false → (length (held workings).table ≡ 0) × (length (held workings).added ≡ 0) },
    // the counts of the book's loads go up to 65,535
    ghost small: { ∥ AllByRecursion Small book ∥₁ },
    // what a settled register guarantees
    ghost sound: { ∥ (settled ≡ true → Guaranteed book (held workings)) ∥₁ },
}
