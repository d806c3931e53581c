// What the library answers for the small systems.

use book::fault::PostFault;
use multipliers::fault::CheckFault;
use ties::fault::TieFault;

#[derive(Clone, Copy, Debug)]
pub struct Findings {
    pub arithmetic: Arithmetic,
    pub pair: Pair,
    pub single: Single,
    pub uneven: Uneven,
    pub no_terms: NoTerms,
}

// Of the binary and the disc scale of length 3.
#[derive(Clone, Copy, Debug)]
pub struct Arithmetic {
    // whether each code is a quotient of 4 by 2, and which of them is answered
    pub four_by_two: [bool; 8],
    pub answered: Option<u32>,
    pub two_by_four: Option<u32>,
    // of the disc: 3 plus 3, 3 times 2, the negative of 1, and the level of code 2
    pub sum: u32,
    pub product: u32,
    pub negative: u32,
    pub level: u8,
}

// Of two heads with one counter of width 3, over the binary scale.
#[derive(Clone, Copy, Debug)]
pub struct Pair {
    // how many digits are free at first, how many 2x + 4y = 6 fixes, and how many are then free
    pub free: u16,
    pub first: Result<u8, PostFault>,
    pub left: u16,
    // the settled digits of x and of y
    pub x: Result<u8, TieFault>,
    pub y: Result<u8, TieFault>,
    // what 4x = 0 is answered, and whether pairs of multipliers show the contradiction
    pub other: Result<u8, PostFault>,
    pub two_and_seven: Result<bool, CheckFault>,
    pub one_and_one: Result<bool, CheckFault>,
    pub four_and_none: Result<bool, CheckFault>,
    // and how many digits 4x = 4 fixes
    pub second: Result<u8, PostFault>,
}

// Of one head with one counter of width 2, over base 3 of length 2.
#[derive(Clone, Copy, Debug)]
pub struct Single {
    // what 3x = 4 is answered in an empty book, and whether the multiplier 3 shows the contradiction
    pub four: Result<u8, PostFault>,
    pub three: Result<bool, CheckFault>,
    // what 3x = 6 is answered in an empty book, and how many digits are then free
    pub six: Result<u8, PostFault>,
    pub left: u16,
}

// Of one head with counters of widths 3 and 1, over the binary scale.
#[derive(Clone, Copy, Debug)]
pub struct Uneven {
    // what ties for target 0 with factor 2 and with factor 4 on counter 1 are answered in an empty book
    pub factor_two: Result<u8, PostFault>,
    pub factor_four: Result<u8, PostFault>,
    // what x0 + x1 = 1 at target 1 is answered in an empty book, and how many digits are then free
    pub sum: Result<u8, PostFault>,
    pub left: u16,
}

// Of ties without terms.
#[derive(Clone, Copy, Debug)]
pub struct NoTerms {
    pub right_one: Result<u8, PostFault>,
    pub right_none: Result<u8, PostFault>,
}
