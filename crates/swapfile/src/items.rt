// What records say, by places of the file and by numbers. Loads are read at their places when they are wanted.

// A record that was read: the byte at which it begins, what it says, and the byte behind it.
#[derive(Clone, Copy)]
pub struct Found<I> {
    pub byte: usize,
    pub item: I,
    pub end: usize,
}

// Where the loads of an equation begin.
#[derive(Clone, Copy)]
pub struct EquationItem {
    pub left: usize,
    pub right: usize,
}

// Where the loads of a rule or an added line begin, and the number behind them: the rule's line, or the length of the line's chain.
#[derive(Clone, Copy)]
pub struct NumberedItem {
    pub sides: EquationItem,
    pub number: u16,
}
