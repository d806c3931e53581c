// What a book answers of a tie that is not posted.

// The value at the book's point, terms less right side, and how many digits of the value the standing ties settle.
#[derive(Clone, Copy, PartialEq, Eq, Debug)]
pub struct Reading {
    pub value: u32,
    pub settled: u8,
}
