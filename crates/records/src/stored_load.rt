// A load in a file: its presence byte, then the counts of the articles that are present.
ghost use Rattle.std.specs.Prelude.{◌≡◌, ◌+◌, ◌<◌, ◌≤◌, length, Some, MatchOption};
ghost use Rattle.swapfile.specs.Sections.{held};
ghost use Rattle.swapfile.specs.StoredLoads.{load_at, load_size, load_zero};

use crate::numbers::number_at;
use loads::Load;

// A load that the bytes hold: where it begins, and the byte behind it.
#[derive(Clone, Copy)]
pub(crate) struct StoredLoad<'a> {
    bytes: &'a [u8],
    pub at: usize,
    pub end: usize,
    ghost sized: { end ≡ at + load_size bytes.now at },
    ghost within: { end ≤ length bytes.now },
}

impl<'a> StoredLoad<'a> {
    // The load that begins at a byte, if the bytes hold all of it. The bits set in its presence byte fix its size.
    pub fn find(bytes: &'a [u8], at: usize) -> Option<StoredLoad<'a>>
        ensures { MatchOption result (length bytes.now < at + load_size bytes.now at) (λ x. (x.bytes.now ≡ bytes.now) × (x.at ≡ at)) }
    {
        let presence = bytes.get(at)?;
        let end = at + 1 + 2 * presence.count_ones() as usize;
        if end <= bytes.len() {
            Some(StoredLoad { bytes, at, end })
        } else {
            None
        }
    }

    // The load.
    pub fn read(&self) -> Load
        ensures { result ≡ load_at self.now.bytes.now self.now.at }
    {
        let mut counts = [0; 8];
        let mut left = self.bytes[self.at];
        let mut place = self.at + 1;
        for count in counts.iter_mut() {
            if left % 2 == 1 {
                *count = number_at(self.bytes, place);
                place += 2;
            }
            left /= 2;
        }
        Load::from(counts)
    }

    // The byte of its first present count that is 0.
    pub fn zero_count(&self) -> Option<usize>
        ensures { result ≡ load_zero self.now.bytes.now self.now.at }
    {
        for place in (self.at + 1..self.end).step_by(2) {
            if number_at(self.bytes, place) == 0 {
                return Some(place);
            }
        }
        None
    }
}

// The load that begins at a byte, if the bytes hold all of it.
pub fn load_at(bytes: &[u8], at: usize) -> Option<Load>
    ensures { result ≡ held load_size bytes.now at (Some (load_at bytes.now at)) }
{
    StoredLoad::find(bytes, at).map(|load| load.read())
}
