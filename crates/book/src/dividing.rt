// The choice of a pivot among products: one that divides all of them, with the quotients.

ghost use Rattle.std.specs.Prelude.{◌≡◌, ℕ, ◌≤◌, [], length, slice_index};
ghost use Rattle.book.specs.Dividing.{Chosen, Divides, DividesBy};
ghost use Rattle.book.specs.Rows.{Codes};
ghost use Rattle.scale.specs.Meaning.{Code, Divided, power};

use arrayvec::ArrayVec;
use scale::Scale;

// Some `c` with `b` times `c` equal to `a`, where there is one; 0 where `a` is 0.
pub fn quotient_of<S: Scale>(scale: &S, a: u32, b: u32) -> Option<u32>
    requires { Code (S.Scale.meaning scale.now) a × Code (S.Scale.meaning scale.now) b }
    ensures { Divided (S.Scale.meaning scale.now) a b result }
{
    if a == 0 {
        Some(0)
    } else {
        scale.quotient(a, b)
    }
}

// What divides by a code again and again: its level, the step to that power, and the cofactor that makes the code that
// power.
#[derive(Clone, Copy)]
pub struct Divisor {
    pub level: u8,
    pub power: u32,
    pub cofactor: u32,
}

impl Divisor {
    // The cofactor is a quotient of the step to the power of the level by the code; it is found here, once for all
    // products.
    pub fn of<S: Scale>(scale: &S, code: u32) -> Divisor
        requires { Code (S.Scale.meaning scale.now) code }
        ensures { DividesBy (S.Scale.meaning scale.now) code result }
    {
        let level = scale.level(code);
        let power = scale.step_power(level);
        Divisor {
            level,
            power,
            cofactor: quotient_of(scale, power, code).unwrap(),
        }
    }

    // Some quotient of `a` by the code that this was made of.
    pub fn quotient<S: Scale>(self, scale: &S, a: u32) -> Option<u32>
        requires code { Code (S.Scale.meaning scale.now) a }
        requires power { self.power ≡ power (S.Scale.meaning scale.now) self.level }
        ensures { let m = S.Scale.meaning scale.now in (b : ℕ) → Code m b → DividesBy m b self → Divided m a b result }
    {
        if a == 0 {
            return Some(0);
        }
        let lowered = scale.lowered_by(a, self.level, self.power)?;
        Some(scale.product(lowered, self.cofactor))
    }
}

// The product chosen among those that were looked at: its number, and what divides by it.
#[derive(Clone, Copy)]
pub struct Choice {
    pub number: usize,
    pub divisor: Divisor,
}

// The last product that the one chosen before it does not divide: it divides all of them. The lent list, which is
// empty, gets a number for each product, and for those from the chosen one on that is the quotient.
pub fn choose<S: Scale>(
    scale: &S,
    products: &ArrayVec<u32, 32>,
    quotients: &mut ArrayVec<u32, 32>,
) -> Choice
    requires codes { Codes (S.Scale.meaning scale.now) products.now.items }
    requires some { 1 ≤ length products.now.items }
    requires blank { quotients.old.items ≡ [] }
    ensures { Chosen (S.Scale.meaning scale.now) products.now.items result quotients.new.items }
{
    let mut number = 0;
    let mut divisor = Divisor::of(scale, products[0]);
    for (i, product) in products.iter().enumerate() {
        match divisor.quotient(scale, *product) {
            Some(quotient) => quotients.push(quotient),
            None => {
                number = i;
                divisor = Divisor::of(scale, *product);
                quotients.push(scale.one());
            }
        }
    }
    Choice { number, divisor }
}

// Writes the quotients of the products before the chosen one over what stands there.
pub fn divide_before<S: Scale>(scale: &S, products: &[u32], choice: Choice, quotients: &mut [u32])
    requires codes { Codes (S.Scale.meaning scale.now) products.now }
    requires chosen { Chosen (S.Scale.meaning scale.now) products.now choice quotients.old }
    ensures { let ds = products.now in Divides (S.Scale.meaning scale.now) ds (slice_index ds choice.number) quotients.new }
{
    for (i, product) in products[..choice.number].iter().enumerate() {
        quotients[i] = choice.divisor.quotient(scale, *product).unwrap();
    }
}
