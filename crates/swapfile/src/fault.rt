// Why bytes are no swap file.
ghost use Rattle.std.specs.Prelude.{◌≡◌};
ghost use Rattle.swapfile.specs.Faults.{number, place};

// The first condition that fails, with the byte at which that shows.
#[derive(Clone, Copy, PartialEq, Eq, Debug)]
pub enum FileFault {
    // There are under 16 bytes, or a count of the header passes its limit.
    Header(usize),
    // The first offset is not 16, or an offset is below the one before it or past the file.
    Offset(usize),
    // A record passes the end of its section, or a section has bytes left over.
    Record(usize),
    // A present count is 0.
    ZeroCount(usize),
}

impl FileFault {
    // The number under which the fault is told: these numbers are the format's.
    pub fn number(&self) -> u8
        ensures { result ≡ number self.now }
    {
        match *self {
            FileFault::Header(_) => 14,
            FileFault::Offset(_) => 15,
            FileFault::Record(_) => 16,
            FileFault::ZeroCount(_) => 17,
        }
    }

    // The byte at which it shows.
    pub fn place(&self) -> usize
        ensures { result ≡ place self.now }
    {
        match *self {
            FileFault::Header(at)
            | FileFault::Offset(at)
            | FileFault::Record(at)
            | FileFault::ZeroCount(at) => at,
        }
    }
}
