// The pivot step on the rows of a table: the point, and behind it the generators.

ghost use Rattle.std.specs.Prelude.{◌≡◌, ℕ, ◌+◌, ◌-◌, ◌*◌, ◌<◌, length, slice_index};
ghost use Rattle.book.specs.Rows.{Codes};
ghost use Rattle.book.specs.Turning.{Formed, Negatives, Returned, Spread, Turned, generator};
ghost use Rattle.scale.specs.Meaning.{Code, digits};

use crate::rows::{add_multiple, multiply};
use arrayvec::ArrayVec;
use scale::Scale;

// The generator by which a tie reduces the others: its number and its row; the tie's raised product with it, which
// divides those with all generators; and the quotients.
#[derive(Default, Drop)]
pub struct Pivot {
    pub number: usize,
    pub row: ArrayVec<u32, 32>,
    pub divisor: u32,
    pub quotients: ArrayVec<u32, 32>,
}

impl Pivot {
    // The number of digits that its step fixes.
    pub fn fixed<S: Scale>(&self, scale: &S) -> u8
        requires { Code (S.Scale.meaning scale.now) self.now.divisor }
        ensures { let m = S.Scale.meaning scale.now in result ≡ digits m - m.level self.now.divisor }
    {
        scale.mark().length - scale.level(self.divisor)
    }
}

// A pivot with its scale, and by how much of it the point is moved.
pub struct Step<'a, S: Scale> {
    pub scale: &'a S,
    pub pivot: &'a Pivot,
    pub shift: u32,
    pub ghost formed: { Formed (S.Scale.meaning scale.now) (length pivot.now.row.items) pivot.now },
    pub ghost code: { Code (S.Scale.meaning scale.now) shift },
}

impl<S: Scale> Step<'_, S> {
    // Moves the point by `shift` times the pivot, clears the other generators, and multiplies the pivot by the step to
    // the power of the digits that are fixed.
    pub fn turn(&self, rows: &mut [u32])
        requires codes { Codes (S.Scale.meaning self.now.scale.now) rows.old }
        requires size { let n = length self.now.pivot.now.row.items in length rows.old ≡ n + n * n }
        requires row { let k = self.now.pivot.now in let n = length k.row.items in (j : ℕ) → j < n → slice_index k.row.items j ≡ generator n rows.old k.number j }
        ensures codes { Codes (S.Scale.meaning self.now.scale.now) rows.new }
        ensures turned { let m = S.Scale.meaning self.now.scale.now in let k = self.now.pivot.now in Turned m (length k.row.items) k.number k.quotients.items self.now.shift (digits m - m.level k.divisor) rows.old rows.new }
    {
        let Pivot {
            number,
            row,
            quotients,
            ..
        } = self.pivot;
        self.spread(rows, self.shift, &negatives(self.scale, quotients));
        let n = row.len();
        let at = n + number * n;
        let power = self.scale.step_power(self.pivot.fixed(self.scale));
        multiply(self.scale, &mut rows[at..at + n], power);
    }

    // Takes the step back: the pivot becomes the row that it was.
    pub fn turn_back(&self, rows: &mut [u32])
        requires codes { Codes (S.Scale.meaning self.now.scale.now) rows.old }
        requires size { let n = length self.now.pivot.now.row.items in length rows.old ≡ n + n * n }
        ensures codes { Codes (S.Scale.meaning self.now.scale.now) rows.new }
        ensures returned { let k = self.now.pivot.now in Returned (S.Scale.meaning self.now.scale.now) (length k.row.items) k.number k.row.items k.quotients.items self.now.shift rows.old rows.new }
    {
        let Pivot {
            number,
            row,
            quotients,
            ..
        } = self.pivot;
        let n = row.len();
        let at = n + number * n;
        rows[at..at + n].copy_from_slice(row);
        self.spread(rows, self.scale.negative(self.shift), quotients);
    }

    // Adds to the point `by` times the pivot's row, and to each generator but the pivot its factor times the row.
    fn spread(&self, rows: &mut [u32], by: u32, factors: &[u32])
        requires codes { let m = S.Scale.meaning self.now.scale.now in Codes m rows.old × Code m by × Codes m factors.now }
        requires size { let n = length self.now.pivot.now.row.items in (length rows.old ≡ n + n * n) × (length factors.now ≡ n) }
        ensures codes { Codes (S.Scale.meaning self.now.scale.now) rows.new }
        ensures spread { let k = self.now.pivot.now in Spread (S.Scale.meaning self.now.scale.now) (length k.row.items) k.number k.row.items by factors.now rows.old rows.new }
    {
        let Pivot { number, row, .. } = self.pivot;
        let n = row.len();
        add_multiple(self.scale, &mut rows[..n], row, by);
        for (i, factor) in factors.iter().enumerate() {
            if i != *number {
                let at = n + i * n;
                add_multiple(self.scale, &mut rows[at..at + n], row, *factor);
            }
        }
    }
}

// A derive would ask it of the scale too, which is only borrowed.
impl<S: Scale> Drop for Step<'_, S> {
    fn drop(self) {
        let Step {
            scale: _,
            pivot: _,
            shift: _,
        } = self;
    }
}

// The negatives of codes.
fn negatives<S: Scale>(scale: &S, numbers: &ArrayVec<u32, 32>) -> ArrayVec<u32, 32>
    ensures { Negatives (S.Scale.meaning scale.now) numbers.now.items result.items }
{
    let mut negatives = ArrayVec::new();
    for number in numbers.iter() {
        negatives.push(scale.negative(*number));
    }
    negatives
}
