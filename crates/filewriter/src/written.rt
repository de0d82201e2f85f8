// What can be written into a file.
ghost use Rattle.std.specs.Prelude.{◌≡◌, ℕ, ◌<◌, ◌^◌, List, length};
ghost use Rattle.std.specs.List.{flat_map};

// A part of a file: a number, a load, or a record that is made of such.
pub(crate) trait Written {
    // Its bytes.
    ghost bytes: { Self → List ℕ };

    // How many they are.
    fn size(&self) -> usize
        requires { length (bytes self.now) < 2 ^ 64 }
        ensures { result ≡ length (bytes self.now) };

    // Fills a buffer of that length with them.
    fn write(&self, out: &mut [u8])
        requires { length out.old ≡ length (bytes self.now) }
        ensures { out.new ≡ bytes self.now };
}

// How many bytes a row takes.
pub(crate) fn total<W: Written>(row: &[W]) -> usize
    requires { length (flat_map W.bytes row.now) < 2 ^ 64 }
    ensures { result ≡ length (flat_map W.bytes row.now) }
{
    let mut sum = 0;
    for x in row {
        sum += x.size();
    }
    sum
}

// Fills a buffer of that length with a row, one behind the other.
pub(crate) fn write_row<W: Written>(out: &mut [u8], row: &[W])
    requires { length out.old ≡ length (flat_map W.bytes row.now) }
    ensures { out.new ≡ flat_map W.bytes row.now }
{
    let mut at = 0;
    for x in row {
        let end = at + x.size();
        x.write(&mut out[at..end]);
        at = end;
    }
}
