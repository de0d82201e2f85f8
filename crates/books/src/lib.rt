// Worked books, as theorems about the definitions that the contracts of the calls cite.
#![tactic(auto)]

ghost use Rattle.books.specs.Books.{WorkedFacts, WorkedBooks};

// Each worked fact comes out as it is told.
pub fn worked_facts()
    ensures { WorkedFacts }
{}

// So does each worked book.
pub fn worked_books()
    ensures { WorkedBooks }
{}
