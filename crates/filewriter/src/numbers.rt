// Numbers of two bytes, the low byte first.
ghost use Rattle.swapfile.specs.Bytes.{number_bytes};

use crate::written::Written;

impl Written for u16 {
    ghost bytes = { number_bytes };

    fn size(&self) -> usize {
        2
    }

    fn write(&self, out: &mut [u8]) {
        out.copy_from_slice(&self.to_le_bytes());
    }
}
