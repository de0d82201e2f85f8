// Numbers of two bytes, the low byte first.
ghost use Rattle.std.specs.Prelude.{◌≡◌, Some};
ghost use Rattle.swapfile.specs.Bytes.{number_at, number_size};
ghost use Rattle.swapfile.specs.Sections.{held};

// The number that stands at a byte. Past the end of the bytes there are zeros.
pub fn number_at(bytes: &[u8], at: usize) -> u16
    ensures { result ≡ number_at bytes.now at }
{
    match bytes.get(at..) {
        Some([low, high, ..]) => u16::from_le_bytes([*low, *high]),
        Some([low]) => u16::from(*low),
        _ => 0,
    }
}

// The number that stands at a byte, if the bytes hold all of it.
pub(crate) fn read_number(bytes: &[u8], at: usize) -> Option<u16>
    ensures { result ≡ held number_size bytes.now at (Some (number_at bytes.now at)) }
{
    let pair = bytes.get(at..)?.first_chunk()?;
    Some(u16::from_le_bytes(*pair))
}
