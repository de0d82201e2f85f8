// What match says.

// Equal or different, with the steps of both reductions. No `Result`: that two loads are different is an answer and no failure.
#[derive(Clone, Copy, PartialEq, Eq, Debug)]
pub enum Verdict {
    Equal(u32),
    Different(u32),
}
