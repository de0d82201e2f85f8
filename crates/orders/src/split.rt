// The split order: two orders of any kind, each for its part of the articles.
ghost use Rattle.std.specs.Prelude.{◌≡◌, cond};
ghost use Rattle.std.specs.Bool.{beq};
ghost use Rattle.loads.specs.Loads.{at};
ghost use Rattle.orders.specs.Relations.{part, split};
ghost use Rattle.orders.specs.SplitLaws.{split_laws};

use crate::order::Order;
use loads::Load;
use std::array;
use std::cmp::Ordering;

// A mark for each article.
#[derive(Clone, Copy)]
pub struct Marks(pub [bool; 8]);

// The count at a place, or 0 where the mark of the place is not `side`: the count is not read then.
fn kept(mark: bool, side: bool, load: &Load, place: usize) -> u16
    ensures { result ≡ cond (beq mark side) (at load.now place) 0 }
{
    if mark == side { load.count(place) } else { 0 }
}

impl Marks {
    // The load with the counts at places whose mark is not `side` set to 0.
    #[tactic(auto, unfolding(crate::specs::Relations::part))]
    fn part(&self, load: &Load, side: bool) -> Load
        ensures { result ≡ part self.now.0 side load.now }
    {
        Load::from(array::from_fn(|i| kept(self.0[i], side, load, i)))
    }
}

// The first order compares the marked parts of two loads; if these are the same, the second compares the unmarked parts. The algebraist's product
// order, which eliminates the marked articles.
#[derive(Clone, Copy)]
pub struct Split<First, Second> {
    pub marks: Marks,
    pub first: First,
    pub second: Second,
}

impl<First: Order, Second: Order> Order for Split<First, Second> {
    ghost above = { λ s. split s.marks.0 (First.Order.above s.first) (Second.Order.above s.second) };

    ghost laws = { λ o. split_laws o.marks.0 (First.Order.laws o.first) (Second.Order.laws o.second) };

    fn compare(&self, a: &Load, b: &Load) -> Ordering {
        self.first
            .compare(&self.marks.part(a, true), &self.marks.part(b, true))
            .then_with(|| {
                self.second
                    .compare(&self.marks.part(a, false), &self.marks.part(b, false))
            })
    }
}
