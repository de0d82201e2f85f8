// The header of a file: four counts and four offsets.
ghost use Rattle.std.specs.Prelude.{◌≡◌, ◌≤◌};
ghost use Rattle.loads.specs.Answers.{check};
ghost use Rattle.swapfile.specs.WellFormed.{counts_kept, offsets_rise, in_turn};

use records::numbers::number_at;
use swapfile::fault::FileFault;

// Refused unless a condition holds.
fn check(condition: bool, fault: FileFault) -> Result<(), FileFault>
    ensures { result ≡ check condition fault }
{
    if condition { Ok(()) } else { Err(fault) }
}

// The header is whole, and no count passes its limit.
pub(crate) fn check_counts(bytes: &[u8]) -> Result<(), FileFault>
    ensures { result ≡ counts_kept bytes.now }
{
    check(bytes.len() >= 16, FileFault::Header(0))?;
    check(number_at(bytes, 0) <= 32, FileFault::Header(0))?;
    check(number_at(bytes, 2) <= 128, FileFault::Header(2))?;
    check(number_at(bytes, 4) <= 512, FileFault::Header(4))?;
    check(number_at(bytes, 6) <= 4096, FileFault::Header(6))
}

// The offset at a header byte is not below the one before it, nor past the file.
fn in_turn(bytes: &[u8], at: usize) -> bool
    requires { 2 ≤ at }
    ensures { result ≡ in_turn bytes.now at }
{
    let offset = number_at(bytes, at);
    number_at(bytes, at - 2) <= offset && offset as usize <= bytes.len()
}

// The first offset is 16, and the others come in turn.
pub(crate) fn check_offsets(bytes: &[u8]) -> Result<(), FileFault>
    ensures { result ≡ offsets_rise bytes.now }
{
    check(number_at(bytes, 8) == 16, FileFault::Offset(8))?;
    check(in_turn(bytes, 10), FileFault::Offset(10))?;
    check(in_turn(bytes, 12), FileFault::Offset(12))?;
    check(in_turn(bytes, 14), FileFault::Offset(14))
}
