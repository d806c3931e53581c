ghost use Rattle.std.specs.Prelude.{◌≡◌, ◌*◌, ◌%◌, ◌<◌, ◌≤◌};
ghost use Rattle.scale.specs.Meaning.{base, reading, size};
ghost use Rattle.scales.specs.Counting.{counting};

use crate::digits::Digits;
use scale::{Mark, Scale};

// Counting modulo the size, in any base that behaves as a prime.
#[derive(Clone, Copy)]
pub struct Counting<D> {
    pub(crate) digits: D,
}

impl<D: Digits> Counting<D> {
    pub(crate) fn reading(&self, a: u32) -> u32
        ensures { result ≡ reading (counting (D.counts self.now.digits)) a }
    {
        self.digits.remainder(u64::from(a))
    }

    // Each turn doubles the number of digits in which the inverse is exact.
    fn inverse(&self, unit: u32) -> u32
        requires { let m = counting (D.counts self.now.digits) in 0 < unit % base m }
        ensures { let m = counting (D.counts self.now.digits) in (unit * result) % size m ≡ 1 }
    {
        let length = u32::from(self.digits.mark().length);
        let size = self.digits.size();
        let mut inverse = self.digits.digit_inverse(unit);
        let mut exact = 1;
        while exact < length {
            let near = self.product(unit, inverse);
            inverse = self.product(inverse, size + 2 - near);
            exact *= 2;
        }
        inverse
    }
}

impl<D: Digits> Scale for Counting<D> {
    ghost meaning = { λ s. counting (D.counts s.digits) };

    ghost lawful = { λ s. D.lawful s.digits };

    fn mark(&self) -> Mark {
        self.digits.mark()
    }

    fn one(&self) -> u32 {
        1
    }

    fn step(&self) -> u32 {
        self.reading(u32::from(self.digits.mark().base))
    }

    fn sum(&self, a: u32, b: u32) -> u32 {
        self.digits.remainder(u64::from(a) + u64::from(b))
    }

    fn negative(&self, a: u32) -> u32 {
        match self.reading(a) {
            0 => 0,
            a => self.digits.size() - a,
        }
    }

    fn product(&self, a: u32, b: u32) -> u32 {
        self.digits.remainder(u64::from(a) * u64::from(b))
    }

    // One remainder serves for both: the whole is below 2^64.
    fn add_product(&self, a: u32, b: u32, c: u32) -> u32 {
        self.digits
            .remainder(u64::from(a) + u64::from(b) * u64::from(c))
    }

    fn gather(&self, total: u64, b: u32, c: u32) -> u64 {
        self.digits.gather(total, b, c)
    }

    fn gathered(&self, total: u64) -> u32 {
        self.digits.remainder(total)
    }

    fn add_multiple(&self, to: &mut [u32], by: u32, from: &[u32]) {
        self.digits.add_multiple(to, by, from)
    }

    fn level(&self, a: u32) -> u8 {
        match self.reading(a) {
            0 => self.digits.mark().length,
            a => self.digits.split(a).level,
        }
    }

    // From the length on the power is 0.
    fn step_power(&self, k: u8) -> u32 {
        let Mark { base, length, .. } = self.digits.mark();
        if k < length {
            u32::from(base).pow(u32::from(k))
        } else {
            0
        }
    }

    // From the length on the power is 0, which divides only 0.
    fn lowered(&self, a: u32, k: u8) -> Option<u32> {
        match self.reading(a) {
            0 => Some(0),
            a if k < self.digits.mark().length => self.digits.lowered(a, k),
            _ => None,
        }
    }

    fn lowered_by(&self, a: u32, k: u8, _by: u32) -> Option<u32> {
        self.lowered(a, k)
    }

    fn quotient(&self, a: u32, b: u32) -> Option<u32> {
        let a = self.reading(a);
        let b = self.reading(b);
        if b == 0 {
            return (a == 0).then_some(0);
        }
        let parts = self.digits.split(b);
        if a % parts.power != 0 {
            return None;
        }
        Some(self.product(a / parts.power, self.inverse(parts.unit)))
    }
}
