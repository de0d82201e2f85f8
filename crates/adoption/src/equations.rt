// The register's own equations in a file.
ghost use Rattle.std.specs.Prelude.{◌≡◌};
ghost use Rattle.adoption.specs.Worksheets.{own_equations};

use crate::fault::WorksheetFault;
use worksheet::equation::Equation;

// The file has the register's own equations, as many and the same.
pub fn check_equations(own: &[Equation], file: &[Equation]) -> Result<(), WorksheetFault>
    ensures { result ≡ own_equations own.now file.now }
{
    if own.len() != file.len() {
        return Err(WorksheetFault::OtherCount);
    }
    match own
        .iter()
        .zip(file)
        .position(|(mine, theirs)| mine != theirs)
    {
        Some(i) => Err(WorksheetFault::Differs(i + 1)),
        None => Ok(()),
    }
}
