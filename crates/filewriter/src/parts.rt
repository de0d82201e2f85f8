// What is written as its parts, one behind the other.
ghost use Rattle.std.specs.Prelude.{◌≡◌, ◌++◌};

use crate::written::Written;

// Two parts, one behind the other.
impl<A: Written, B: Written> Written for (A, B) {
    ghost bytes = { λ p. A.bytes p.0 ++ B.bytes p.1 };

    fn size(&self) -> usize {
        self.0.size() + self.1.size()
    }

    fn write(&self, out: &mut [u8]) {
        let end = self.0.size();
        self.0.write(&mut out[..end]);
        self.1.write(&mut out[end..]);
    }
}

// A record that is written as its parts.
pub(crate) trait Parted {
    type Parts: Written + Copy;

    // The parts.
    ghost parts: { Self → Self.Parts };

    fn parts(&self) -> Self::Parts
        ensures { result ≡ parts self.now };
}

impl<P: Parted> Written for P {
    ghost bytes = { λ x. P.Parts.bytes (P.parts x) };

    fn size(&self) -> usize {
        self.parts().size()
    }

    fn write(&self, out: &mut [u8]) {
        self.parts().write(out);
    }
}
