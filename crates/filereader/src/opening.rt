// Making a reader of bytes that are a file.
ghost use Rattle.std.specs.Prelude.{◌≡◌, ◌≤◌, length, IfOk};
ghost use Rattle.swapfile.specs.Bytes.{number_at};
ghost use Rattle.swapfile.specs.Decoding.{Counted};
ghost use Rattle.swapfile.specs.Layout.{layout};
ghost use Rattle.swapfile.specs.Theorems.{Tells};
ghost use Rattle.swapfile.specs.WellFormed.{records_fill, zeros_absent};
ghost use Rattle.filereader.specs.Readers.{laid_out};

use crate::header::{check_counts, check_offsets};
use crate::reader::Reader;
use crate::window::Window;
use records::numbers::number_at;
use swapfile::fault::FileFault;

impl<'a> Reader<'a> {
    // A reader of the bytes, if they are a file; else their first fault. They are one exactly when they are written for some content.
    pub fn open(bytes: &'a [u8]) -> Result<Reader<'a>, FileFault>
        ensures read { result ≡ laid_out bytes.now }
        ensures tells { Tells bytes.now result }
        ensures counted { IfOk result Counted }
    {
        Reader::checked(bytes)
    }

    // Each condition throughout the file before the next.
    fn checked(bytes: &'a [u8]) -> Result<Reader<'a>, FileFault>
        ensures { result ≡ laid_out bytes.now }
    {
        check_counts(bytes)?;
        check_offsets(bytes)?;
        let reader = Reader::over(bytes);
        reader.check_records()?;
        reader.check_zeros()?;
        Ok(reader)
    }

    // The windows that the header lays out.
    fn over(bytes: &'a [u8]) -> Reader<'a>
        requires header { 16 ≤ length bytes.now }
        requires equations_within { number_at bytes.now 10 ≤ length bytes.now }
        requires rules_within { number_at bytes.now 12 ≤ length bytes.now }
        requires lines_within { number_at bytes.now 14 ≤ length bytes.now }
        ensures { result ≡ layout bytes.now }
    {
        Reader {
            equations: Window::at(bytes, 0, number_at(bytes, 10) as usize),
            rules: Window::at(bytes, 2, number_at(bytes, 12) as usize),
            lines: Window::at(bytes, 4, number_at(bytes, 14) as usize),
            chain: Window::at(bytes, 6, bytes.len()),
        }
    }

    // The records of each section fill it.
    fn check_records(&self) -> Result<(), FileFault>
        ensures { result ≡ records_fill self.now }
    {
        self.equations.check_records()?;
        self.rules.check_records()?;
        self.lines.check_records()?;
        self.chain.check_records()
    }

    // No present count is 0.
    fn check_zeros(&self) -> Result<(), FileFault>
        ensures { result ≡ zeros_absent self.now }
    {
        self.equations.check_zeros()?;
        self.rules.check_zeros()?;
        self.lines.check_zeros()
    }
}
