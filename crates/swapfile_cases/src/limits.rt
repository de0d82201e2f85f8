// The largest file, and contents that pass a limit.
use filereader::reader::Reader;
use filewriter::fault::WriteFault;
use filewriter::file::write_file;
use loads::Load;
use std::alloc::{AllocError, Global};
use std::test::Fail;
use worksheet::equation::Equation;
use worksheet::line::Line;
use worksheet::rule::Rule;

// An equation of all articles with the largest counts.
fn full() -> Equation {
    Equation {
        left: Load::from([65535; 8]),
        right: Load::from([256; 8]),
    }
}

// A rule and a line of it.
fn full_rule() -> Rule {
    let sides = full();
    Rule {
        left: sides.left,
        right: sides.right,
        line: 65535,
    }
}

fn full_line() -> Line {
    Line {
        claim: full(),
        length: 8,
    }
}

// Writes so many equations, rules, lines and chain numbers into a buffer.
fn write_full(
    heap: Global,
    out: &mut [u8],
    counts: [usize; 4],
) -> Result<Result<usize, WriteFault>, AllocError> {
    let [equations, rules, lines, numbers] = counts;
    let book = vec![in heap; full(); equations]?;
    let table = vec![in heap; full_rule(); rules]?;
    let worksheet = vec![in heap; full_line(); lines]?;
    let chain = vec![in heap; -32768i16; numbers]?;
    Ok(write_file(out, &book, &table, &worksheet, &chain))
}

// What a reader of the largest file tells.
fn reads_largest(bytes: &[u8]) -> bool {
    let Ok(mut reader) = Reader::open(bytes) else {
        return false;
    };
    if reader.rules.offset() != 1104
        || reader.lines.offset() != 5712
        || reader.chain.offset() != 24144
    {
        return false;
    }
    let Some(line) = reader.lines.next_value() else {
        return false;
    };
    let claim = full();
    line.claim.left == claim.left && line.length == 8 && reader.chain.next_value() == Some(-32768)
}

#[test]
fn largest_file(rt: HostRuntime) -> Result<(), Fail> {
    let mut out = [0u8; 32336];
    let told = write_full(rt.alloc(), &mut out, [32, 128, 512, 4096])?;
    assert!(rt; told == Ok(32336) && reads_largest(&out));
    Ok(())
}

#[test]
fn one_byte_less(rt: HostRuntime) -> Result<(), Fail> {
    let mut out = [0u8; 32335];
    let told = write_full(rt.alloc(), &mut out, [32, 128, 512, 4096])?;
    assert!(rt; told == Err(WriteFault::ShortBuffer));
    Ok(())
}

#[test]
fn over_a_limit(rt: HostRuntime) -> Result<(), Fail> {
    let over = [
        [33, 0, 0, 0],
        [0, 129, 0, 0],
        [0, 0, 513, 0],
        [0, 0, 0, 4097],
    ];
    for counts in over {
        let mut out = [7u8; 16];
        let told = write_full(rt.alloc(), &mut out, counts)?;
        assert!(rt; told == Err(WriteFault::OverLimit) && out == [7u8; 16]);
    }
    Ok(())
}
