ghost use Rattle.std.specs.Prelude.{◌≡◌, ◌-◌, ◌^◌, ◌≤◌};
ghost use Rattle.scales.specs.Kinds.{Numbers, binary_mark};

use crate::counting::Counting;
use crate::digits::{Digits, Parts};
use crate::fault::ScaleFault;
use crate::kind::Kind;
use scale::Mark;

// Counting in base 2.
pub type Binary = Counting<Bits>;

// The digits of base 2.
#[derive(Clone, Copy)]
pub struct Bits {
    length: u8,
    mask: u32,
    ghost numbers: { Numbers (binary_mark length) },
    ghost whole: { mask ≡ 2 ^ length - 1 },
}

impl Counting<Bits> {
    ghost use Rattle.scales.specs.Kinds.{Makes};
    ghost use Rattle.scales.specs.Made.{binary};

    // Lengths are 1 to 31.
    pub fn new(length: u8) -> Result<Binary, ScaleFault>
        ensures { Makes binary (binary_mark length) result }
    {
        if length == 0 || length > 31 {
            return Err(ScaleFault::Numbers);
        }
        let mask = (1 << length) - 1;
        Ok(Counting {
            digits: Bits { length, mask },
        })
    }
}

impl Digits for Bits {
    ghost use Rattle.scales.specs.Known.{named_laws};

    ghost counts = { λ s. binary_mark s.length };

    ghost lawful = { λ s. named_laws (binary_mark s.length) s.numbers };

    fn mark(&self) -> Mark {
        Mark {
            kind: Kind::Binary.into(),
            base: 2,
            length: self.length,
        }
    }

    fn size(&self) -> u32 {
        self.mask + 1
    }

    fn remainder(&self, x: u64) -> u32 {
        (x & u64::from(self.mask)) as u32
    }

    // The size divides 2^64: what is lost beyond 64 bits does not count.
    fn gather(&self, total: u64, b: u32, c: u32) -> u64 {
        total.wrapping_add(u64::from(b) * u64::from(c))
    }

    fn split(&self, a: u32) -> Parts {
        let level = a.trailing_zeros();
        Parts {
            level: level as u8,
            power: 1 << level,
            unit: a >> level,
        }
    }

    fn lowered(&self, a: u32, k: u8) -> Option<u32> {
        let rest = a >> k;
        (rest << k == a).then_some(rest)
    }

    fn digit_inverse(&self, _unit: u32) -> u32 {
        1
    }
}
