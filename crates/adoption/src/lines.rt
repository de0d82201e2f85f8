// The lines of a file's worksheet.
ghost use Rattle.std.specs.Prelude.{◌≡◌, ◌+◌, ◌≤◌, length};
ghost use Rattle.worksheet.specs.Claims.{claimed};
ghost use Rattle.worksheet.specs.Derivations.{derivations, lengths};
ghost use Rattle.adoption.specs.Worksheets.{even_chains, line_replays, lines_replay, lines_hold};

use crate::fault::WorksheetFault;
use worksheet::equation::Equation;
use worksheet::line::Line;
use worksheet::lines::Lines;

// The lines take all chain numbers, and no more. This check and the one of all lines below take the book and the lines apart: they count or cut the
// lines, and `Lines` is what is known by number.
fn check_lengths(book: &[Equation], lines: &[Line], numbers: usize) -> Result<(), WorksheetFault>
    ensures { result ≡ even_chains (length book.now + 1) lines.now numbers }
{
    let mut left = numbers;
    for (i, line) in lines.iter().enumerate() {
        let Some(rest) = left.checked_sub(usize::from(line.length)) else {
            return Err(WorksheetFault::TooHigh(book.len() + i + 1));
        };
        left = rest;
    }
    if left == 0 {
        Ok(())
    } else {
        Err(WorksheetFault::TooLow)
    }
}

// The line after the known ones has a chain that leads from its left load to its right load.
fn check_line(known: &Lines, chain: &[i16], claim: &Equation) -> Result<(), WorksheetFault>
    ensures { result ≡ line_replays (claimed known.now) (record { claim = claim.now; chain = chain.now }) }
{
    let number = known.book.len() + known.added.len() + 1;
    let end = known
        .replay(chain, &claim.left)
        .map_err(|fault| WorksheetFault::Replay(number, fault))?;
    if end == claim.right {
        Ok(())
    } else {
        Err(WorksheetFault::Elsewhere(number))
    }
}

// Every line replays by those before it.
fn replay_lines(book: &[Equation], lines: &[Line], chain: &[i16]) -> Result<(), WorksheetFault>
    requires { lengths lines.now ≤ length chain.now }
    ensures { result ≡ lines_replay book.now (derivations lines.now chain.now) }
{
    let mut start = 0;
    for (i, line) in lines.iter().enumerate() {
        let end = start + usize::from(line.length);
        let known = Lines {
            book,
            added: &lines[..i],
        };
        check_line(&known, &chain[start..end], &line.claim)?;
        start = end;
    }
    Ok(())
}

// The lines take all chain numbers, and each of them replays.
pub fn check_lines(lines: &Lines, chain: &[i16]) -> Result<(), WorksheetFault>
    ensures { result ≡ lines_hold lines.now.book.now lines.now.added.now chain.now }
{
    check_lengths(lines.book, lines.added, chain.len())?;
    replay_lines(lines.book, lines.added, chain)
}
