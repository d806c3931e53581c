// The plain data of a book: the rows of its sheet, and the standing ties.

use crate::standing::Standing;

// The point and the generators, each of one code a counter, one behind the other; the standing ties in order;
// and the number of digits that are left free.
#[derive(Drop)]
pub struct Table {
    pub rows: Vec<u32>,
    pub standing: Vec<Standing>,
    pub free: u16,
}
