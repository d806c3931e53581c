ghost use Rattle.std.specs.Prelude.{◌≡◌, ℕ, ◌+◌, ◌*◌, ◌/◌, ◌%◌, ◌^◌, ◌<◌, ◌≤◌};
ghost use Rattle.scales.specs.Kinds.{Numbers, longest, number, prime_mark};
ghost use Rattle.scales.specs.Parting.{Parted};

use crate::counting::Counting;
use crate::digits::{Digits, Parts};
use crate::fault::ScaleFault;
use crate::kind::Kind;
use scale::Mark;

// Counting in base 3, 5 or 7.
pub type Prime = Counting<OddBase>;

// The digits of base 3, 5 or 7.
#[derive(Clone, Copy)]
pub struct OddBase {
    base: u8,
    length: u8,
    size: u32,
    reciprocal: u64,
    ghost numbers: { Numbers (prime_mark base length) },
    ghost whole: { size ≡ base ^ length },
    ghost rounded: { reciprocal ≡ 18446744073709551615 / size },
}

impl Counting<OddBase> {
    ghost use Rattle.scales.specs.Kinds.{Makes};
    ghost use Rattle.scales.specs.Made.{prime};

    // Base 3 has lengths 1 to 19, base 5 has 1 to 13, and base 7 has 1 to 11.
    pub fn new(base: u8, length: u8) -> Result<Prime, ScaleFault>
        ensures { Makes prime (prime_mark base length) result }
    {
        if length == 0 || length > greatest_length(base) {
            return Err(ScaleFault::Numbers);
        }
        let size = u32::from(base).pow(u32::from(length));
        Ok(Counting {
            digits: OddBase {
                base,
                length,
                size,
                reciprocal: u64::MAX / u64::from(size),
            },
        })
    }
}

// The greatest length of a base, and 0 for one that has none.
fn greatest_length(base: u8) -> u8
    ensures { result ≡ longest (number Kind.Prime) base }
{
    match base {
        3 => 19,
        5 => 13,
        7 => 11,
        _ => 0,
    }
}

// A number to multiply by, below the size, and 2^32 times it in whole sizes: with it a product's remainder takes no wide
// product.
#[derive(Clone, Copy)]
pub struct Multiplier {
    pub by: u32,
    pub ratio: u32,
}

impl OddBase {
    fn multiplier(&self, by: u32) -> Multiplier
        ensures by { result.by ≡ by % self.now.size }
        ensures ratio { result.ratio ≡ (result.by * 2 ^ 32) / self.now.size }
    {
        let by = self.remainder(u64::from(by));
        Multiplier {
            by,
            ratio: ((u64::from(by) << 32) / u64::from(self.size)) as u32,
        }
    }

    // The ratio gives the quotient, or one less than it.
    fn times(&self, multiplier: Multiplier, c: u32) -> u32
        requires { multiplier.ratio ≡ (multiplier.by * 2 ^ 32) / self.now.size }
        ensures { result ≡ (multiplier.by * c) % self.now.size }
    {
        let near = (u64::from(multiplier.ratio) * u64::from(c)) >> 32;
        let product = u64::from(multiplier.by) * u64::from(c);
        self.within((product - near * u64::from(self.size)) as u32)
    }

    // The remainder of a number below twice the size.
    fn within(&self, a: u32) -> u32
        requires { a < self.now.size + self.now.size }
        ensures { result ≡ a % self.now.size }
    {
        if a < self.size { a } else { a - self.size }
    }

    // `power` is the base to `digits`: those zeros leave the unit, if they are there.
    fn shed(&self, parts: Parts, digits: u8, power: u64) -> Parts
        requires raised { power ≡ self.now.base ^ digits }
        requires before { Parted self.now.base (power * power) (parts.power * parts.unit) parts }
        requires small { parts.power * parts.unit < 2 ^ 32 }
        requires short { parts.level + digits + digits ≤ 32 }
        ensures after { Parted self.now.base power (parts.power * parts.unit) result }
        ensures short { result.level + digits ≤ 32 }
    {
        let unit = u64::from(parts.unit);
        if unit % power != 0 {
            return parts;
        }
        Parts {
            level: parts.level + digits,
            power: (u64::from(parts.power) * power) as u32,
            unit: (unit / power) as u32,
        }
    }
}

impl Digits for OddBase {
    ghost use Rattle.scales.specs.Known.{named_laws};

    ghost counts = { λ s. prime_mark s.base s.length };

    ghost lawful = { λ s. named_laws (prime_mark s.base s.length) s.numbers };

    fn mark(&self) -> Mark {
        Mark {
            kind: Kind::Prime.into(),
            base: self.base,
            length: self.length,
        }
    }

    fn size(&self) -> u32 {
        self.size
    }

    // A multiplication by the reciprocal is the quotient, or one less than it.
    fn remainder(&self, x: u64) -> u32 {
        let near = ((u128::from(x) * u128::from(self.reciprocal)) >> 64) as u64;
        self.within((x - near * u64::from(self.size)) as u32)
    }

    fn add_multiple(&self, to: &mut [u32], by: u32, from: &[u32]) {
        let by = self.multiplier(by);
        let one = self.multiplier(1);
        for j in 0..to.len().min(from.len()) {
            to[j] = self.within(self.times(one, to[j]) + self.times(by, from[j]));
        }
    }

    // No number below the size has more than 31 zeros.
    fn split(&self, a: u32) -> Parts {
        let whole = Parts {
            level: 0,
            power: 1,
            unit: a,
        };
        if a % u32::from(self.base) != 0 {
            return whole;
        }
        let first = u64::from(self.base);
        let second = first * first;
        let fourth = second * second;
        let eighth = fourth * fourth;
        let parts = self.shed(whole, 16, eighth * eighth);
        let parts = self.shed(parts, 8, eighth);
        let parts = self.shed(parts, 4, fourth);
        let parts = self.shed(parts, 2, second);
        self.shed(parts, 1, first)
    }

    fn lowered(&self, a: u32, k: u8) -> Option<u32> {
        let power = u32::from(self.base).pow(u32::from(k));
        (a % power == 0).then_some(a / power)
    }

    // In these bases the power base - 2 of a digit is its inverse.
    fn digit_inverse(&self, unit: u32) -> u32 {
        let base = u32::from(self.base);
        (unit % base).pow(base - 2)
    }
}
