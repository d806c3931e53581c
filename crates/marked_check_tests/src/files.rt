use marked_check::check_marked;
use marked_check::line::Line;
use std::alloc::Global;
use std::process::Abort;
use std::test::Fail;

// Binary, length 3, two heads with one counter of width 3: 2x + 4y = 6, and 4x = 0.
pub const TWO_TIES: [u8; 50] = [
    3, 1, 16, 0, 6, 0, 2, 22, 0, 17, 0, 2, 39, 0, 11, 0, // the table
    1, 2, 3, 2, 1, 3, // the layout
    0, 6, 0, 0, 0, 0, 0, 2, 0, 0, 0, 1, 0, 4, 0, 0, 0, // 2x + 4y = 6
    0, 0, 0, 0, 0, 0, 0, 4, 0, 0, 0, // 4x = 0
];

// Binary, length 3, one head with counters of widths 3 and 1: for target 0, 4 times counter 1 equals 1.
pub const TWO_WIDTHS: [u8; 29] = [
    2, 1, 11, 0, 7, 0, 2, 18, 0, 11, 0, // the table
    1, 2, 3, 1, 2, 3, 1, // the layout
    0, 1, 0, 0, 0, 0, 1, 4, 0, 0, 0, // the tie
];

// Base 3, length 2, one head with a counter of width 2: 3x = 4.
pub const BASE_THREE: [u8; 28] = [
    2, 1, 11, 0, 6, 0, 2, 17, 0, 11, 0, // the table
    2, 3, 2, 1, 1, 2, // the layout
    0, 4, 0, 0, 0, 0, 0, 3, 0, 0, 0, // the tie
];

// Disc, length 3, one head with a counter of width 3: code 3 times x equals code 1, positions 2 and 1.
pub const DISC: [u8; 28] = [
    2, 1, 11, 0, 6, 0, 2, 17, 0, 11, 0, // the table
    3, 2, 3, 1, 1, 3, // the layout
    0, 1, 0, 0, 0, 0, 0, 3, 0, 0, 0, // the tie
];

// The check of a file answers a line.
pub fn says(
    rt: &impl Abort,
    heap: Global,
    file: &[u8],
    multipliers: &[u32],
    line: &str,
) -> Result<(), Fail> {
    let said = Line(check_marked(file, multipliers)).to_string(heap)?;
    assert_eq!(rt; said.as_str(), line);
    Ok(())
}

// The same of the file of two ties with another byte at a place.
pub fn damaged(rt: &impl Abort, heap: Global, at: usize, byte: u8, line: &str) -> Result<(), Fail> {
    let mut file = TWO_TIES;
    if at < 50 {
        file[at] = byte;
    }
    says(rt, heap, &file, &[2, 7], line)
}
