// A rule that was looked for.
use worksheet::rule::Rule;

// A rule of the table, and its place counted from 0.
#[derive(Clone, Copy)]
pub struct Found {
    pub place: usize,
    pub rule: Rule,
}
