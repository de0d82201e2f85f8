// Files that are read and written again.
use crate::data::*;
use filereader::reader::Reader;
use filewriter::fault::WriteFault;
use filewriter::file::write_file;
use loads::Load;
use std::alloc::Global;
use std::test::Fail;
use worksheet::equation::Equation;
use worksheet::line::Line;
use worksheet::rule::Rule;

// Whether all bytes of a part are 7.
fn is_untouched(bytes: &[u8]) -> bool {
    bytes.iter().all(|byte| *byte == 7)
}

// Reads a file and writes what it says: the same bytes, and the bytes beyond them stay.
fn reads_and_writes(heap: Global, file: &[u8]) -> Result<bool, Fail> {
    let reader = Reader::open(file)?;
    let mut book = Vec::with_capacity(heap, 32)?;
    let mut table = Vec::with_capacity(heap, 128)?;
    let mut worksheet = Vec::with_capacity(heap, 512)?;
    let mut numbers = Vec::with_capacity(heap, 4096)?;
    reader.equations.read_into(&mut book)?;
    reader.rules.read_into(&mut table)?;
    reader.lines.read_into(&mut worksheet)?;
    reader.chain.read_into(&mut numbers)?;
    let mut out = [7u8; 2000];
    let length = write_file(&mut out, &book, &table, &worksheet, &numbers)?;
    Ok(length == file.len() && out.strip_prefix(file).is_some_and(is_untouched))
}

#[test]
fn files(rt: HostRuntime) -> Result<(), Fail> {
    for file in FILES {
        assert!(rt; reads_and_writes(rt.alloc(), file)?);
    }
    Ok(())
}

// The file of a² = b in a buffer.
fn write_worked(out: &mut [u8]) -> Result<usize, WriteFault> {
    let left = Load::from([2, 0, 0, 0, 0, 0, 0, 0]);
    let right = Load::from([0, 1, 0, 0, 0, 0, 0, 0]);
    let claim = Equation { left, right };
    let rule = Rule {
        left,
        right,
        line: 2,
    };
    let line = Line { claim, length: 1 };
    write_file(out, &[claim], &[rule], &[line], &[1])
}

#[test]
fn worked_file(rt: HostRuntime) {
    let mut out = [7u8; 42];
    assert_eq!(rt; write_worked(&mut out), Ok(40));
    assert!(rt;
        out.strip_prefix(WORKED.as_slice())
            .is_some_and(is_untouched)
    );
}

// Whether a buffer is too short, and stays.
fn is_too_short(out: &mut [u8]) -> bool {
    write_worked(out) == Err(WriteFault::ShortBuffer) && is_untouched(out)
}

#[test]
fn short_buffers_stay(rt: HostRuntime) {
    for n in 0..40 {
        let mut out = [7u8; 40];
        assert!(rt; is_too_short(&mut out[..n]));
    }
}
