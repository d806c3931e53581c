// What a tie asks of the rows of a table.

ghost use Rattle.std.specs.Prelude.{◌≡◌, ◌+◌, ◌*◌, length};
ghost use Rattle.book.specs.Measures.{Blank, Measures};
ghost use Rattle.book.specs.Rows.{Codes};
ghost use Rattle.ties.specs.Equations.{equation};
ghost use Rattle.ties.specs.Layouts.{places, shape};

use crate::dividing::{choose, divide_before};
use crate::pivot::Pivot;
use crate::rows::{multiply, total_at, totals_at};
use arrayvec::ArrayVec;
use scale::Scale;
use ties::sound::SoundTie;

// Writes the tie's pivot into a blank one, which is lent so that it is copied only into the table, and answers by how much
// of it the point is to be moved to meet the tie, where that can be done.
pub fn measure<S: Scale>(tie: &SoundTie<S>, rows: &[u32], pivot: &mut Pivot) -> Option<u32>
    requires codes { Codes (S.Scale.meaning tie.now.scale.now) rows.now }
    requires size { let n = places (shape tie.now.layout.now) in length rows.now ≡ n + n * n }
    requires blank { Blank pivot.old }
    ensures { Measures (S.Scale.meaning tie.now.scale.now) (shape tie.now.layout.now) (equation tie.now.tie) rows.now pivot.new result }
{
    let n = tie.layout.places();
    let scale = tie.scale;
    let raise = tie.raise();
    let mut products = ArrayVec::new();
    totals_at(tie, rows, &mut products);
    multiply(scale, &mut products, raise);
    let choice = choose(scale, &products, &mut pivot.quotients);
    divide_before(scale, &products, choice, &mut pivot.quotients);
    let at = n + choice.number * n;
    pivot.number = choice.number;
    pivot.row.try_extend_from_slice(&rows[at..at + n]).unwrap();
    pivot.divisor = products[choice.number];
    let reached = scale.product(raise, total_at(tie, &rows[..n]));
    let rest = scale.sum(scale.product(raise, tie.tie.right), scale.negative(reached));
    choice.divisor.quotient(scale, rest)
}
