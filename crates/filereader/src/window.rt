// Windows on the sections of a file.
ghost use Rattle.std.specs.Prelude.{◌≡◌, ◌+◌, ◌<◌, ◌≤◌, length, Some};
ghost use Rattle.swapfile.specs.Layout.{section};
ghost use Rattle.swapfile.specs.Sections.{Section, held};
ghost use Rattle.swapfile.specs.StoredLoads.{load_size, load_at};

use loads::Load;
use records::numbers::number_at;
use records::stored_load::load_at;
use std::marker::{Model, PhantomData};

// The section of the records of one kind: the file's bytes up to its end, the byte at which its records begin, and how many there are.
#[derive(Drop)]
pub struct Window<'a, R> {
    pub(crate) bytes: &'a [u8],
    pub(crate) start: usize,
    pub(crate) count: usize,
    kind: PhantomData<R>,
}

// To a contract a window is the section that it shows.
impl<'a, R> Model for Window<'a, R> {
    ghost Value = { Section };

    ghost view = { λ w. record { bytes = w.bytes.now; start = w.start; count = w.count } };
}

impl<'a, R> Window<'a, R> {
    // The window on the section whose count stands at a header byte, and its offset eight bytes on.
    pub(crate) fn at(bytes: &'a [u8], at: usize, end: usize) -> Window<'a, R>
        requires header { at + 9 < length bytes.now }
        requires within { end ≤ length bytes.now }
        ensures { result ≡ section bytes.now at «end» }
    {
        Window {
            bytes: &bytes[..end],
            start: number_at(bytes, at + 8) as usize,
            count: number_at(bytes, at) as usize,
            kind: PhantomData,
        }
    }

    // Another window on the same section. What has a lifetime and a model cannot be `Copy`, and `Clone` would give a `Result`.
    pub(crate) fn copied(&self) -> Window<'a, R>
        ensures { result ≡ self.now }
    {
        Window { ..*self }
    }

    // The byte of the file at which the section begins, or what is left of it.
    pub fn offset(&self) -> usize
        ensures { result ≡ self.now.start }
    {
        self.start
    }

    // How many records it has.
    pub fn len(&self) -> usize
        ensures { result ≡ self.now.count }
    {
        self.count
    }

    // The load that begins at a byte, if the file up to the section's end holds all of it.
    pub fn load(&self, at: usize) -> Option<Load>
        ensures { result ≡ held load_size self.now.bytes at (Some (load_at self.now.bytes at)) }
    {
        load_at(self.bytes, at)
    }
}

// A row has no room for what is to be read into it.
#[derive(Clone, Copy, PartialEq, Eq, Debug)]
pub struct NoRoom;
