// Which articles a load has, as the bits of a byte.
ghost use Rattle.std.specs.Prelude.{◌≡◌, length};
ghost use Rattle.loads.specs.Bits.{bits};
ghost use Rattle.loads.specs.Presence.{presence, kinds};
ghost use Rattle.loads.specs.Tests.{shares};

use crate::Load;

// A bit for each count, 1 where it is not 0; bit 0 is for the first.
pub(crate) fn presence_of(counts: &[u16; 8]) -> u8
    ensures { result ≡ bits counts.now }
{
    let mut bits = 0;
    for count in counts.iter().rev() {
        bits = 2 * bits + u8::from(*count > 0);
    }
    bits
}

impl Load {
    // The presence byte: a bit for each article, 1 where the load has a piece of it; bit 0 is for article 1.
    pub fn presence(&self) -> u8
        ensures { result ≡ presence self.now }
    {
        self.presence
    }

    // How many articles the load has a piece of.
    pub fn kinds(&self) -> u32
        ensures { result ≡ kinds self.now }
    {
        self.presence.count_ones()
    }

    // Some article stands in both.
    pub fn shares(&self, other: &Load) -> bool
        ensures { result ≡ shares self.now other.now }
    {
        self.presence & other.presence != 0
    }
}
