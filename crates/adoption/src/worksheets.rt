// The conditions on a file's worksheet together.
ghost use Rattle.std.specs.Prelude.{◌≡◌};
ghost use Rattle.adoption.specs.Worksheets.{worksheet_holds};

use crate::equations::check_equations;
use crate::fault::WorksheetFault;
use crate::lines::check_lines;
use worksheet::equation::Equation;
use worksheet::lines::Lines;

// The file has the register's own equations, and its lines, which follow on these, replay.
pub fn check_worksheet(
    file: &[Equation],
    lines: &Lines,
    chain: &[i16],
) -> Result<(), WorksheetFault>
    ensures { result ≡ worksheet_holds lines.now.book.now file.now lines.now.added.now chain.now }
{
    check_equations(lines.book, file)?;
    check_lines(lines, chain)
}
