// Faults with the place at which they were met.
ghost use Rattle.std.specs.Prelude.{◌≡◌};
ghost use Rattle.loads.specs.Answers.{marked};
ghost use Rattle.questions.specs.declared.placed.Place.{Place};
ghost use Rattle.questions.specs.Placed.{code, placed};

// Where a call stands: at an equation, by its number; at the rules at two places; at the right load of the rule at a place; or at one of the loads
// that the call brought, counted from 1.
#[derive(Clone, Copy, PartialEq, Eq, Debug)]
pub enum Place {
    Entry(u16),
    Pair(u8, u8),
    RightLoad(u8),
    Argument(u8),
}

// The place as one number: that of the equation, 256 × i + j for the rules at the places i and j, 32,768 and its place for a right load, and 1 or 2
// for a load that was brought.
impl From<Place> for u16 {
    ghost from_gives = { λ p n. n ≡ code p };

    fn from(place: Place) -> u16 {
        match place {
            Place::Entry(number) => number,
            Place::Pair(i, j) => 256 * u16::from(i) + u16::from(j),
            Place::RightLoad(i) => 32768 + u16::from(i),
            Place::Argument(n) => u16::from(n),
        }
    }
}

// A fault, and the place at which the call stood.
#[derive(Clone, Copy, PartialEq, Eq, Debug)]
pub struct Placed<E> {
    pub fault: E,
    pub place: Place,
}

// What gains a place where it is a refusal.
pub trait AtPlace {
    type Answer;

    ghost told: { Self → Place → Self.Answer };

    fn at(self, place: Place) -> Self::Answer
        ensures { result ≡ told self place };
}

impl<T, E> AtPlace for Result<T, E> {
    type Answer = Result<T, Placed<E>>;

    ghost told = { λ r place. marked (placed place) r };

    fn at(self, place: Place) -> Result<T, Placed<E>> {
        self.map_err(|fault| Placed { fault, place })
    }
}
