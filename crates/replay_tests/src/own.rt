// A scale of a caller's own, with the eight functions that must be given. It counts in base 2, and its sum is the reading
// of a running total.

ghost use Rattle.scales.specs.Kinds.{binary_mark};
ghost use Rattle.scales.specs.Known.{named_laws};
ghost use Rattle.scales.specs.Made.{binary};

use scale::{Mark, Scale};
use scales::Binary;

#[derive(Drop)]
pub struct Own {
    pub counter: Binary,
}

impl Scale for Own {
    ghost meaning = { λ s. binary s.counter };

    ghost lawful = { λ s. named_laws (binary_mark s.counter.digits.length) s.counter.digits.numbers };

    fn mark(&self) -> Mark {
        self.counter.mark()
    }

    fn one(&self) -> u32 {
        self.counter.one()
    }

    fn step(&self) -> u32 {
        self.counter.step()
    }

    fn sum(&self, a: u32, b: u32) -> u32 {
        self.gathered(u64::from(a) + u64::from(b))
    }

    fn negative(&self, a: u32) -> u32 {
        self.counter.negative(a)
    }

    fn product(&self, a: u32, b: u32) -> u32 {
        self.counter.product(a, b)
    }

    fn level(&self, a: u32) -> u8 {
        self.counter.level(a)
    }

    fn quotient(&self, a: u32, b: u32) -> Option<u32> {
        self.counter.quotient(a, b)
    }
}
