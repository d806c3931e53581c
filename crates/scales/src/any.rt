ghost use Rattle.scales.specs.Kinds.{Makes, binary_mark, prime_mark, disc_mark};
ghost use Rattle.scales.specs.Made.{any_scale};
ghost use Rattle.scales.specs.declared.any.AnyScale.TheVariants.{Binary, Prime, Disc};
ghost use Rattle.scales.specs.Known.{named_laws};

use crate::binary::Binary;
use crate::disc::Disc;
use crate::fault::ScaleFault;
use crate::kind::Kind;
use crate::prime::Prime;
use scale::{Mark, Scale};

// A scale of any of the three kinds.
#[derive(Clone, Copy)]
pub enum AnyScale {
    Binary(Binary),
    Prime(Prime),
    Disc(Disc),
}

impl AnyScale {
    // The scale that a mark names.
    pub fn from_mark(mark: Mark) -> Result<AnyScale, ScaleFault>
        ensures { Makes any_scale mark result }
    {
        match (Kind::try_from(mark.kind)?, mark.base) {
            (Kind::Binary, 2) => Binary::new(mark.length).map(AnyScale::Binary),
            (Kind::Prime, base) => Prime::new(base, mark.length).map(AnyScale::Prime),
            (Kind::Disc, 2) => Disc::new(mark.length).map(AnyScale::Disc),
            _ => Err(ScaleFault::Numbers),
        }
    }
}

impl Scale for AnyScale {
    ghost meaning = { any_scale };

    ghost lawful = { elim [
      | Binary s ↦ named_laws (binary_mark s.digits.length) s.digits.numbers
      | Prime s ↦ named_laws (prime_mark s.digits.base s.digits.length) s.digits.numbers
      | Disc s ↦ named_laws (disc_mark s.positions.digits.length) s.positions.digits.numbers
    ] };

    fn mark(&self) -> Mark {
        match self {
            AnyScale::Binary(s) => s.mark(),
            AnyScale::Prime(s) => s.mark(),
            AnyScale::Disc(s) => s.mark(),
        }
    }

    fn one(&self) -> u32 {
        match self {
            AnyScale::Binary(s) => s.one(),
            AnyScale::Prime(s) => s.one(),
            AnyScale::Disc(s) => s.one(),
        }
    }

    fn step(&self) -> u32 {
        match self {
            AnyScale::Binary(s) => s.step(),
            AnyScale::Prime(s) => s.step(),
            AnyScale::Disc(s) => s.step(),
        }
    }

    fn sum(&self, a: u32, b: u32) -> u32 {
        match self {
            AnyScale::Binary(s) => s.sum(a, b),
            AnyScale::Prime(s) => s.sum(a, b),
            AnyScale::Disc(s) => s.sum(a, b),
        }
    }

    fn negative(&self, a: u32) -> u32 {
        match self {
            AnyScale::Binary(s) => s.negative(a),
            AnyScale::Prime(s) => s.negative(a),
            AnyScale::Disc(s) => s.negative(a),
        }
    }

    fn product(&self, a: u32, b: u32) -> u32 {
        match self {
            AnyScale::Binary(s) => s.product(a, b),
            AnyScale::Prime(s) => s.product(a, b),
            AnyScale::Disc(s) => s.product(a, b),
        }
    }

    fn add_product(&self, a: u32, b: u32, c: u32) -> u32 {
        match self {
            AnyScale::Binary(s) => s.add_product(a, b, c),
            AnyScale::Prime(s) => s.add_product(a, b, c),
            AnyScale::Disc(s) => s.add_product(a, b, c),
        }
    }

    // A loop over terms then asks for the kind once.
    #[inline]
    fn gather(&self, total: u64, b: u32, c: u32) -> u64 {
        match self {
            AnyScale::Binary(s) => s.gather(total, b, c),
            AnyScale::Prime(s) => s.gather(total, b, c),
            AnyScale::Disc(s) => s.gather(total, b, c),
        }
    }

    fn gathered(&self, total: u64) -> u32 {
        match self {
            AnyScale::Binary(s) => s.gathered(total),
            AnyScale::Prime(s) => s.gathered(total),
            AnyScale::Disc(s) => s.gathered(total),
        }
    }

    fn add_multiple(&self, to: &mut [u32], by: u32, from: &[u32]) {
        match self {
            AnyScale::Binary(s) => s.add_multiple(to, by, from),
            AnyScale::Prime(s) => s.add_multiple(to, by, from),
            AnyScale::Disc(s) => s.add_multiple(to, by, from),
        }
    }

    fn level(&self, a: u32) -> u8 {
        match self {
            AnyScale::Binary(s) => s.level(a),
            AnyScale::Prime(s) => s.level(a),
            AnyScale::Disc(s) => s.level(a),
        }
    }

    fn step_power(&self, k: u8) -> u32 {
        match self {
            AnyScale::Binary(s) => s.step_power(k),
            AnyScale::Prime(s) => s.step_power(k),
            AnyScale::Disc(s) => s.step_power(k),
        }
    }

    fn lowered(&self, a: u32, k: u8) -> Option<u32> {
        match self {
            AnyScale::Binary(s) => s.lowered(a, k),
            AnyScale::Prime(s) => s.lowered(a, k),
            AnyScale::Disc(s) => s.lowered(a, k),
        }
    }

    fn lowered_by(&self, a: u32, k: u8, _by: u32) -> Option<u32> {
        self.lowered(a, k)
    }

    fn quotient(&self, a: u32, b: u32) -> Option<u32> {
        match self {
            AnyScale::Binary(s) => s.quotient(a, b),
            AnyScale::Prime(s) => s.quotient(a, b),
            AnyScale::Disc(s) => s.quotient(a, b),
        }
    }
}
