// What a table is made by.
use crate::capacity::Capacity;
use tables::book::Book;

// The order in which rules fall, how many rules the table may have, and the book that is settled.
#[derive(Clone, Copy)]
pub struct Task<'a, O> {
    pub order: &'a O,
    pub capacity: Capacity,
    pub book: &'a Book,
}
