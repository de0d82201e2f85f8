// How many rules a table may have.
ghost use Rattle.std.specs.Prelude.{◌≤◌};

// From 1 to 128 rules.
#[derive(Clone, Copy)]
pub struct Capacity {
    pub(crate) rules: usize,
    ghost some: { 1 ≤ rules },
    ghost few: { rules ≤ 128 },
}

// A number that is no capacity: it is 0, or more than 128.
#[derive(Clone, Copy, PartialEq, Eq, Debug)]
pub struct NoCapacity(pub usize);

pub mod limits;
