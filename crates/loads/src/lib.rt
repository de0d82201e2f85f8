// Loads: how many pieces of each of eight articles. In the logic a load has counts of any size, so what is shown of loads holds beyond 16 bits.
#![tactic(auto)]

ghost use Rattle.std.specs.Prelude.{◌≡◌, T, length, ◌==◌};
ghost use Rattle.loads.specs.Bits.{bits};

// A load, an exponent vector to the algebraist: the counts of articles 1 to 8. Beside them it keeps its presence byte, a bit for each article that
// it has a piece of, so that most questions are answered before a count is read. The byte stands last: copies of loads are slower where it is first.
#[derive(Clone, Copy, PartialEq, Eq)]
pub struct Load {
    counts: [u16; 8],
    presence: u8,
    ghost eight: { T (length counts == 8) },
    ghost present: { presence ≡ bits counts },
}

pub mod containment;
pub mod counts;
pub mod exchange;
pub mod presence;
