// Bytes that are no file, and why.
use crate::data::*;
use filereader::reader::Reader;
use std::ops::Range;

// The number and the place of what bytes are refused with; none for a file.
fn answer(bytes: &[u8]) -> Answer {
    let fault = Reader::open(bytes).err()?;
    Some((fault.number(), fault.place()))
}

// Whether the worked file, cut to each of these lengths, is answered so.
fn is_cut(mut lengths: Range<usize>, wanted: Answer) -> bool {
    lengths.all(|n| WORKED.get(..n).is_some_and(|cut| answer(cut) == wanted))
}

#[test]
fn truncated(rt: HostRuntime) {
    let cuts = [
        (0..16, Some((14, 0))),
        (16..22, Some((15, 10))),
        (22..30, Some((15, 12))),
        (30..38, Some((15, 14))),
        (38..40, Some((16, 38))),
        (40..41, None),
    ];
    for (lengths, wanted) in cuts {
        assert!(rt; is_cut(lengths, wanted));
    }
}

// The answer for the worked file with one byte changed.
fn changed(at: usize, value: u8) -> Answer {
    let mut bytes = *WORKED;
    if let Some(byte) = bytes.get_mut(at) {
        *byte = value;
    }
    answer(&bytes)
}

#[test]
fn one_byte_changed(rt: HostRuntime) {
    for (at, (byte, wanted)) in WORKED.iter().zip(&CHANGED).enumerate() {
        let flipped = changed(at, byte ^ 255);
        let cleared = changed(at, 0);
        let raised = changed(at, byte.wrapping_add(1));
        assert_eq!(rt; [flipped, cleared, raised], *wanted);
    }
}

// The answers for all values of one byte, in one number.
fn changes(at: usize) -> u32 {
    let mut sum = 0u32;
    for value in 0..=255u8 {
        let (number, place) = changed(at, value).unwrap_or((0, 0));
        let both = u32::from(number) * 65536 + (place % 65536) as u32;
        sum = sum.wrapping_mul(31).wrapping_add(both);
    }
    sum
}

#[test]
fn every_value_of_one_byte(rt: HostRuntime) {
    for (at, wanted) in ALL_CHANGES.iter().enumerate() {
        assert_eq!(rt; changes(at), *wanted);
    }
}

#[test]
fn larger_faulty_files(rt: HostRuntime) {
    for (bytes, fault) in FAULTY {
        assert_eq!(rt; answer(bytes), Some(fault));
    }
}
