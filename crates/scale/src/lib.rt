// The arithmetic of one sort of wrapping counter.

#![tactic(auto)]

ghost use Rattle.std.specs.Prelude.{◌≡◌, Decides, length, min};
ghost use Rattle.scale.specs.Meaning.{Code, Divided, Laws, Meaning, MultipleAdded, power, reading};

// A scale's kind, digit base and length in digits. The kind is a plain number: a crate may have scales of its own kinds.
#[derive(Clone, Copy, PartialEq, Eq, Debug)]
pub struct Mark {
    pub kind: u8,
    pub base: u8,
    pub length: u8,
}

// A scale: its functions answer by its meaning, which keeps the laws.
// A number that is no code is read as its remainder by the number of codes.
pub trait Scale {
    ghost meaning: { Self → Meaning };

    fn mark(&self) -> Mark
        ensures { result ≡ (meaning self.now).mark };

    fn one(&self) -> u32
        ensures { result ≡ (meaning self.now).one };

    fn step(&self) -> u32
        ensures { result ≡ (meaning self.now).step };

    fn sum(&self, a: u32, b: u32) -> u32
        ensures { let m = meaning self.now in result ≡ m.sum (reading m a) (reading m b) };

    fn negative(&self, a: u32) -> u32
        ensures { let m = meaning self.now in result ≡ m.negative (reading m a) };

    fn product(&self, a: u32, b: u32) -> u32
        ensures { let m = meaning self.now in result ≡ m.product (reading m a) (reading m b) };

    // `a` plus `b` times `c`; a scale may have a shorter way to it.
    fn add_product(&self, a: u32, b: u32, c: u32) -> u32
        ensures { let m = meaning self.now in result ≡ m.sum (reading m a) (m.product (reading m b) (reading m c)) }
    {
        self.sum(a, self.product(b, c))
    }

    // A running total, which is read as its remainder, with `b` times `c`; a scale may leave the remainder for later.
    fn gather(&self, total: u64, b: u32, c: u32) -> u64
        ensures { let m = meaning self.now in reading m result ≡ m.sum (reading m total) (m.product (reading m b) (reading m c)) }
    {
        let total = match u32::try_from(total) {
            Ok(total) => total,
            Err(_) => self.gathered(total),
        };
        u64::from(self.add_product(total, b, c))
    }

    // The code that a running total is read as. The mark alone is asked for, so that a sum may be made of this.
    fn gathered(&self, total: u64) -> u32
        ensures { let m = meaning self.now in result ≡ reading m total }
    {
        let Mark { base, length, .. } = self.mark();
        // A number of so many bits is a code in any base.
        if total >> length == 0 {
            return total as u32;
        }
        (total % u64::from(base).pow(u32::from(length))) as u32
    }

    // Adds `by` times a list to another, as far as both go; a scale may have a shorter way to it.
    fn add_multiple(&self, to: &mut [u32], by: u32, from: &[u32])
        ensures { MultipleAdded (meaning self.now) by from.now to.old to.new (min (length to.old) (length from.now)) }
    {
        for j in 0..to.len().min(from.len()) {
            to[j] = self.add_product(to[j], by, from[j]);
        }
    }

    fn level(&self, a: u32) -> u8
        ensures { let m = meaning self.now in result ≡ m.level (reading m a) };

    // Some `c` with `b` times `c` equal to `a`: there exactly when the level of `a` is at least that of `b`.
    fn quotient(&self, a: u32, b: u32) -> Option<u32>
        ensures { let m = meaning self.now in Divided m (reading m a) (reading m b) result };

    // The step to the power `k`.
    fn step_power(&self, k: u8) -> u32
        ensures { result ≡ power (meaning self.now) k }
    {
        let step = self.step();
        (0..k).fold(self.one(), |power, _| self.product(step, power))
    }

    // The quotient of `a` by the step to the power `k`; a scale may have a shorter way to it.
    fn lowered(&self, a: u32, k: u8) -> Option<u32>
        ensures { let m = meaning self.now in Divided m (reading m a) (power m k) result }
    {
        self.quotient(a, self.step_power(k))
    }

    // The same where that power is at hand, so that it need not be made for each of many quotients.
    fn lowered_by(&self, a: u32, k: u8, by: u32) -> Option<u32>
        requires { by ≡ power (meaning self.now) k }
        ensures { let m = meaning self.now in Divided m (reading m a) (power m k) result }
    {
        self.quotient(a, by)
    }

    ghost lawful: { (s : Self) → Laws (meaning s) };
}

// Whether `a` is a code: only a code is its own sum with 0.
pub fn is_code<S: Scale>(scale: &S, a: u32) -> bool
    ensures { let m = S.Scale.meaning scale.now in Decides result (Code m a) }
{
    scale.sum(a, 0) == a
}
