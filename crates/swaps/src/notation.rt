// Loads in letters: a to h for one piece of articles 1 to 8, each followed by its count unless that is 1. The empty load is 1.
use crate::numbers::read_number;
use loads::Load;
use std::fmt;

// The letters of the articles.
pub(crate) const LETTERS: [u8; 8] = *b"abcdefgh";

// A load as it is printed.
#[derive(Clone, Copy)]
pub(crate) struct Letters(pub(crate) Load);

impl fmt::Display for Letters {
    fn fmt<W: fmt::Write>(&self, f: &mut fmt::Formatter<W>) -> fmt::Result {
        if self.0.is_empty() {
            return write!(f, "1");
        }
        for (place, byte) in LETTERS.iter().enumerate() {
            let letter = char::from(*byte);
            match self.0.count(place) {
                0 => {}
                1 => write!(f, "{letter}")?,
                count => write!(f, "{letter}{count}")?,
            }
        }
        Ok(())
    }
}

// The count at the front of a text, and the text after it: 1 where no digit stands there, else a number above 1 that begins with no 0.
fn read_count(text: &[u8]) -> Option<(u16, &[u8])> {
    let end = text
        .iter()
        .position(|byte| !byte.is_ascii_digit())
        .unwrap_or(text.len());
    let (digits, rest) = text.split_at(end);
    let count = match digits {
        [] => 1,
        [b'0', ..] => return None,
        _ => read_number(digits).filter(|count| *count > 1)?,
    };
    Some((count, rest))
}

// The load that a text writes, if it is written as it would be printed.
pub(crate) fn read_load(text: &[u8]) -> Option<Load> {
    if text == b"1".as_slice() {
        return Some(Load::empty());
    }
    let mut counts = [0; 8];
    let mut rest = text;
    for (count, letter) in counts.iter_mut().zip(&LETTERS) {
        match rest {
            [first, after @ ..] if first == letter => (*count, rest) = read_count(after)?,
            _ => {}
        }
    }
    if text.is_empty() || !rest.is_empty() {
        return None;
    }
    Some(Load::from(counts))
}
