// A load by its counts, and its total.
ghost use Rattle.std.specs.Prelude.{◌≡◌, true};
ghost use Rattle.loads.specs.Loads.{at, empty, of_counts};
ghost use Rattle.loads.specs.Tests.{alike, fits};
ghost use Rattle.loads.specs.Totals.{pieces};

use crate::Load;
use crate::presence::presence_of;

// The load with these counts of articles 1 to 8.
impl From<[u16; 8]> for Load {
    ghost from_gives = { λ counts r. r ≡ of_counts counts };

    fn from(counts: [u16; 8]) -> Load {
        Load {
            counts,
            presence: presence_of(&counts),
        }
    }
}

impl Load {
    // The load without a piece.
    pub fn empty() -> Load
        ensures { result ≡ empty }
    {
        Load {
            counts: [0; 8],
            presence: 0,
        }
    }

    // The counts of articles 1 to 8.
    pub fn counts(&self) -> &[u16; 8]
        ensures { result.now ≡ self.now.counts }
    {
        &self.counts
    }

    // How many pieces of the article at a place, counted from 0; none past the eighth.
    pub fn count(&self, place: usize) -> u16
        ensures { result ≡ at self.now place }
    {
        self.counts.get(place).copied().unwrap_or(0)
    }

    // The total of pieces. That it was added up shows that every count fits 16 bits.
    pub fn pieces(&self) -> u32
        ensures is { result ≡ pieces self.now }
        ensures small { fits self.now ≡ true }
    {
        let mut sum = 0;
        for count in self.counts.iter() {
            sum += u32::from(*count);
        }
        sum
    }

    // Whether the load has no piece.
    pub fn is_empty(&self) -> bool
        ensures is { result ≡ alike self.now empty }
        ensures small { fits self.now ≡ true }
    {
        self.pieces() == 0
    }
}
