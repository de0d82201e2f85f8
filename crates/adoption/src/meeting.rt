// Equations and pairs of a file's table.
ghost use Rattle.std.specs.Prelude.{◌≡◌};
ghost use Rattle.adoption.specs.Tables.{all_meet};

use crate::fault::TableFault;
use questions::asking::ask_all;
use tables::book::Book;
use tables::table::Table;

// Every equation and every pair ends in one load; what is left of the budget.
pub fn check_meeting(table: &Table, book: &Book, budget: u32) -> Result<u32, TableFault>
    ensures { result ≡ all_meet table.now budget book.now }
{
    Ok(ask_all(table, book, budget)?)
}
