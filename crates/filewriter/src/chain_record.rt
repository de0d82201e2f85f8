// The record of a chain number: two bytes, in two's complement.
ghost use Rattle.std.proofs.Common.{of_z};
ghost use Rattle.std.specs.Int.{w16};

use crate::parts::Parted;

impl Parted for i16 {
    type Parts = u16;

    ghost parts = { of_z w16 };

    fn parts(&self) -> u16 {
        self.cast_unsigned()
    }
}
