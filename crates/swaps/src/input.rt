// The lines of a script as its bytes come in.
use crate::memory::NoMemory;
use std::alloc::Global;

// The longest line that is understood. Of a longer one, one byte more is kept, which tells it.
const LONGEST: usize = 1_000_000;

// The bytes of the line so far, and its number.
#[derive(Drop)]
pub(crate) struct LineBuffer {
    bytes: Vec<u8>,
    number: u64,
}

impl LineBuffer {
    pub(crate) fn new(heap: Global) -> LineBuffer {
        LineBuffer {
            bytes: Vec::new(heap),
            number: 1,
        }
    }

    // One byte more of the line.
    pub(crate) fn push(&mut self, byte: u8) -> Result<(), NoMemory> {
        if self.bytes.len() <= LONGEST {
            self.bytes.push(byte)?;
        }
        Ok(())
    }

    // The line, unless it is too long to be understood.
    pub(crate) fn line(&self) -> Option<&[u8]> {
        (self.bytes.len() <= LONGEST).then_some(self.bytes.as_slice())
    }

    pub(crate) fn number(&self) -> u64 {
        self.number
    }

    // Goes on to the next line.
    pub(crate) fn next(&mut self) {
        self.bytes.clear();
        self.number = self.number.saturating_add(1);
    }
}
