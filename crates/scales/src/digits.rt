// Whole numbers by their digits in one base.

ghost use Rattle.std.specs.Prelude.{◌≡◌, ◌+◌, ◌*◌, ◌%◌, ◌^◌, ◌<◌, length, min};
ghost use Rattle.scale.specs.declared.Mark.{Mark as Marked};
ghost use Rattle.scale.specs.Meaning.{Laws, MultipleAdded, base, size};
ghost use Rattle.scales.specs.Counting.{counting};
ghost use Rattle.scales.specs.Parting.{Lowered, Parted};

use scale::Mark;

// A number that is not 0: a power of the base times a unit, a number whose last digit is not 0.
#[derive(Clone, Copy)]
pub struct Parts {
    pub level: u8,
    pub power: u32,
    pub unit: u32,
}

// What counting asks of a base and a length.
pub trait Digits {
    ghost counts: { Self → Marked };

    fn mark(&self) -> Mark
        ensures { result ≡ counts self.now };

    fn size(&self) -> u32
        ensures { result ≡ size (counting (counts self.now)) };

    fn remainder(&self, x: u64) -> u32
        ensures { result ≡ x % size (counting (counts self.now)) };

    // A running total with `b` times `c`, by its remainder, which waits until the total is too large.
    fn gather(&self, total: u64, b: u32, c: u32) -> u64
        ensures { let n = size (counting (counts self.now)) in result % n ≡ (total + b * c) % n }
    {
        let product = u64::from(b) * u64::from(c);
        match total.checked_add(product) {
            Some(sum) => sum,
            None => u64::from(self.remainder(total)) + product,
        }
    }

    // Adds `by` times a list to another, as far as both go.
    fn add_multiple(&self, to: &mut [u32], by: u32, from: &[u32])
        ensures { MultipleAdded (counting (counts self.now)) by from.now to.old to.new (min (length to.old) (length from.now)) }
    {
        for j in 0..to.len().min(from.len()) {
            to[j] = self.remainder(u64::from(to[j]) + u64::from(by) * u64::from(from[j]));
        }
    }

    fn split(&self, a: u32) -> Parts
        requires { (0 < a) × (a < size (counting (counts self.now))) }
        ensures { let q = base (counting (counts self.now)) in Parted q q a result };

    // `a` without its last `k` digits, where they are 0.
    fn lowered(&self, a: u32, k: u8) -> Option<u32>
        requires { k < (counts self.now).length }
        ensures { let q = base (counting (counts self.now)) in Lowered q a k result };

    fn digit_inverse(&self, unit: u32) -> u32
        requires { 0 < unit % base (counting (counts self.now)) }
        ensures { (unit * result) % base (counting (counts self.now)) ≡ 1 };

    ghost lawful: { (s : Self) → Laws (counting (counts s)) };
}
