// Windows and their records.
use crate::data::*;
use filereader::reader::Reader;
use loads::Load;
use std::test::Fail;
use swapfile::items::{Found, NumberedItem};

#[test]
fn sections(rt: HostRuntime) -> Result<(), Fail> {
    let reader = Reader::open(WORKED)?;
    let offsets = [
        reader.equations.offset(),
        reader.rules.offset(),
        reader.lines.offset(),
        reader.chain.offset(),
    ];
    assert_eq!(rt; offsets, [16, 22, 30, 38]);
    Ok(())
}

#[test]
fn equations_tell_their_bytes(rt: HostRuntime) -> Result<(), Fail> {
    let mut reader = Reader::open(WORKED)?;
    let places = reader.equations.next().map(|found| [
        found.byte,
        found.item.left,
        found.item.right,
        found.end,
    ]);
    assert_eq!(rt; places, Some([16, 16, 19, 22]));
    assert!(rt; reader.equations.next().is_none());
    Ok(())
}

// The places that a rule or a line tells, and its number.
fn told(found: Found<NumberedItem>) -> ([usize; 4], u16) {
    let sides = found.item.sides;
    (
        [found.byte, sides.left, sides.right, found.end],
        found.item.number,
    )
}

#[test]
fn rules_tell_their_bytes(rt: HostRuntime) -> Result<(), Fail> {
    let mut reader = Reader::open(WORKED)?;
    assert_eq!(rt; reader.rules.next().map(told), Some(([22, 22, 25, 30], 2)));
    Ok(())
}

#[test]
fn lines_tell_their_bytes(rt: HostRuntime) -> Result<(), Fail> {
    let mut reader = Reader::open(WORKED)?;
    assert_eq!(rt; reader.lines.next().map(told), Some(([30, 30, 33, 38], 1)));
    Ok(())
}

#[test]
fn chain_numbers_tell_their_bytes(rt: HostRuntime) -> Result<(), Fail> {
    let mut reader = Reader::open(WORKED)?;
    let told = reader
        .chain
        .next()
        .map(|found| (found.byte, found.item, found.end));
    assert_eq!(rt; told, Some((38, 1, 40)));
    Ok(())
}

// Whether the load at a byte of the rules' section has so many of the first two articles.
fn is_load(at: usize, first: u16, second: u16) -> bool {
    let wanted = Load::from([first, second, 0, 0, 0, 0, 0, 0]);
    Reader::open(WORKED)
        .ok()
        .and_then(|reader| reader.rules.load(at))
        .is_some_and(|load| load == wanted)
}

#[test]
fn loads_at_their_places(rt: HostRuntime) {
    assert!(rt; is_load(22, 2, 0) && is_load(25, 0, 1) && is_load(29, 0, 0));
    assert!(rt; !is_load(30, 2, 0));
}
