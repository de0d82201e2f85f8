// Writing a whole file.
ghost use Rattle.std.specs.Prelude.{◌≡◌, length};
ghost use Rattle.swapfile.specs.Content.{content_of};
ghost use Rattle.filewriter.specs.Writing.{written, buffer_after, ReadsAs};

use crate::fault::WriteFault;
use crate::written::{total, write_row};
use worksheet::equation::Equation;
use worksheet::line::Line;
use worksheet::rule::Rule;

// Puts the file of a register's content at the start of a buffer, and gives its length. Bytes beyond it stay, and a refusal leaves the buffer.
pub fn write_file(
    out: &mut [u8],
    equations: &[Equation],
    rules: &[Rule],
    lines: &[Line],
    chain: &[i16],
) -> Result<usize, WriteFault>
    ensures told { result ≡ written (content_of equations.now rules.now lines.now chain.now) (length out.old) }
    ensures buffer { out.new ≡ buffer_after (content_of equations.now rules.now lines.now chain.now) result out.old }
    ensures back { ReadsAs (content_of equations.now rules.now lines.now chain.now) result out.new }
{
    if equations.len() > 32 || rules.len() > 128 || lines.len() > 512 || chain.len() > 4096 {
        return Err(WriteFault::OverLimit);
    }
    let rules_at = 16 + total(equations);
    let lines_at = rules_at + total(rules);
    let chain_at = lines_at + total(lines);
    let end = chain_at + total(chain);
    if out.len() < end {
        return Err(WriteFault::ShortBuffer);
    }
    let counts = [
        equations.len() as u16,
        rules.len() as u16,
        lines.len() as u16,
        chain.len() as u16,
    ];
    let offsets = [16, rules_at as u16, lines_at as u16, chain_at as u16];
    write_row(&mut out[0..8], &counts);
    write_row(&mut out[8..16], &offsets);
    write_row(&mut out[16..rules_at], equations);
    write_row(&mut out[rules_at..lines_at], rules);
    write_row(&mut out[lines_at..chain_at], lines);
    write_row(&mut out[chain_at..end], chain);
    Ok(end)
}
