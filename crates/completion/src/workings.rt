// What a register holds beside its book.
ghost use Rattle.std.specs.Prelude.{◌≡◌, ◌≤◌, vec_len, vec_capacity};
ghost use Rattle.worksheet.specs.Derivations.{lengths};

use tables::table::Table;
use worksheet::line::Line;

// The table, and the added lines of the worksheet with their chains: at most 512 lines and 4,096 chain numbers, in room that is reserved once. The
// chains stand in one row, in the order of the lines: a row for each would want memory while a book is settled.
// There is no model: clauses also speak of the two rows, which a view as table and derivations would leave out.
#[derive(Drop)]
pub struct Workings {
    table: Table,
    lines: Vec<Line>,
    chain: Vec<i16>,
    ghost room: { (512 ≤ vec_capacity lines) × (4096 ≤ vec_capacity chain) },
    ghost few: { (vec_len lines ≤ 512) × (vec_len chain ≤ 4096) },
    ghost summed: { lengths lines.items ≡ vec_len chain },
}

pub mod adding;
pub mod changing;
pub mod making;
pub mod noting;
pub mod reading;
pub mod rounds;
