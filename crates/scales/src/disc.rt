ghost use Rattle.std.specs.Prelude.{◌≡◌, ◌%◌, ◌^◌};
ghost use Rattle.scales.specs.Kinds.{Makes, disc_mark};
ghost use Rattle.scales.specs.Made.{disc};
ghost use Rattle.scales.specs.Numbering.{gray, ungray};
ghost use Rattle.scales.specs.Known.{named_laws};

use crate::binary::Binary;
use crate::fault::ScaleFault;
use crate::kind::Kind;
use scale::{Mark, Scale};

// Counting in base 2 under reflected Gray codes: a code stands for its position.
#[derive(Clone, Copy)]
pub struct Disc {
    positions: Binary,
}

impl Disc {
    // Lengths are 1 to 31.
    pub fn new(length: u8) -> Result<Disc, ScaleFault>
        ensures { Makes disc (disc_mark length) result }
    {
        Ok(Disc {
            positions: Binary::new(length)?,
        })
    }

    fn position(&self, code: u32) -> u32
        ensures at { let e = self.now.positions.digits.length in result ≡ ungray e (code % 2 ^ e) }
        ensures within { result % 2 ^ self.now.positions.digits.length ≡ result }
        ensures back { gray result ≡ code % 2 ^ self.now.positions.digits.length }
    {
        position_of_gray(self.positions.reading(code))
    }
}

fn gray_code(position: u32) -> u32
    ensures { result ≡ gray position }
{
    position ^ (position >> 1)
}

// Each turn takes in as many digits again as stand in the position already.
fn position_of_gray(code: u32) -> u32
    ensures { result ≡ ungray 32 code }
{
    let mut position = code;
    for digits in [1u32, 2, 4, 8, 16] {
        position ^= position >> digits;
    }
    position
}

impl Scale for Disc {
    ghost meaning = { disc };

    ghost lawful = { λ s. named_laws (disc_mark s.positions.digits.length) s.positions.digits.numbers };

    fn mark(&self) -> Mark {
        Mark {
            kind: Kind::Disc.into(),
            ..self.positions.mark()
        }
    }

    fn one(&self) -> u32 {
        gray_code(self.positions.one())
    }

    fn step(&self) -> u32 {
        gray_code(self.positions.step())
    }

    fn sum(&self, a: u32, b: u32) -> u32 {
        gray_code(self.positions.sum(self.position(a), self.position(b)))
    }

    fn negative(&self, a: u32) -> u32 {
        gray_code(self.positions.negative(self.position(a)))
    }

    fn product(&self, a: u32, b: u32) -> u32 {
        gray_code(self.positions.product(self.position(a), self.position(b)))
    }

    fn add_product(&self, a: u32, b: u32, c: u32) -> u32 {
        gray_code(
            self.positions
                .add_product(self.position(a), self.position(b), self.position(c)),
        )
    }

    // A total is read as its last digits, which are a code's.
    fn gathered(&self, total: u64) -> u32 {
        self.positions.gathered(total)
    }

    fn level(&self, a: u32) -> u8 {
        self.positions.level(self.position(a))
    }

    fn step_power(&self, k: u8) -> u32 {
        gray_code(self.positions.step_power(k))
    }

    fn lowered(&self, a: u32, k: u8) -> Option<u32> {
        self.positions.lowered(self.position(a), k).map(gray_code)
    }

    fn lowered_by(&self, a: u32, k: u8, _by: u32) -> Option<u32> {
        self.lowered(a, k)
    }

    fn quotient(&self, a: u32, b: u32) -> Option<u32> {
        self.positions
            .quotient(self.position(a), self.position(b))
            .map(gray_code)
    }
}
