// Why a table does not take a rule.

// The table holds 128 rules; it ends before the place; or the rule's line is above 544, so that no chain could cite it.
#[derive(Clone, Copy, PartialEq, Eq, Debug)]
pub enum Misfit {
    Full,
    NoPlace,
    LineTooHigh,
}
