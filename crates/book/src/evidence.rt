// Multipliers that show a contradiction, by back-substitution.

ghost use Rattle.std.specs.Prelude.{◌≡◌, ℕ, None, ◌<◌, ◌≤◌, [], ◌∷◌, ◌++◌, length, vec_len, slice_index};
ghost use Rattle.book.specs.Evidence.{Settled, against};
ghost use Rattle.book.specs.Measures.{Measures};
ghost use Rattle.book.specs.Rows.{Codes, Keeps};
ghost use Rattle.book.specs.Standing.{Stands, ledger};
ghost use Rattle.book.specs.Turning.{Formed};
ghost use Rattle.multipliers.specs.Refuting.{Refutes};
ghost use Rattle.scale.specs.Meaning.{Code, summed};
ghost use Rattle.ties.specs.Equations.{equation};
ghost use Rattle.ties.specs.Layouts.{Within, places, shape};

use crate::dividing::quotient_of;
use crate::pivot::Pivot;
use crate::table::Table;
use multipliers::adding::add_terms;
use scale::Scale;
use ties::sound::SoundTie;

// The product of two rows, of which the second may be shorter.
fn dot<S: Scale>(scale: &S, a: &[u32], b: &[u32]) -> u32
    requires codes { Codes (S.Scale.meaning scale.now) a.now × Codes (S.Scale.meaning scale.now) b.now }
    requires long { length b.now ≤ length a.now }
    ensures { let m = S.Scale.meaning scale.now in Code m result × (result ≡ summed m (length b.now) (λ j. m.product (slice_index a.now j) (slice_index b.now j))) }
{
    let mut total = 0;
    for (x, y) in a.iter().zip(b) {
        total = scale.gather(total, *x, *y);
    }
    scale.gathered(total)
}

// Adds the multiple of a standing tie that cancels the row on the tie's pivot, and answers the multiplier.
fn settle<S: Scale>(tie: &SoundTie<S>, pivot: &Pivot, row: &mut [u32; 32]) -> u32
    requires formed { Formed (S.Scale.meaning tie.now.scale.now) (places (shape tie.now.layout.now)) pivot.now }
    requires codes { Codes (S.Scale.meaning tie.now.scale.now) row.old }
    requires divides { let m = S.Scale.meaning tie.now.scale.now in m.level pivot.now.divisor ≤ m.level (against m (shape tie.now.layout.now) row.old pivot.now) }
    ensures { Settled (S.Scale.meaning tie.now.scale.now) (shape tie.now.layout.now) (equation tie.now.tie) pivot.now row.old row.new result }
{
    let scale = tie.scale;
    let product = dot(scale, row, &pivot.row);
    let multiplier = scale.negative(quotient_of(scale, product, pivot.divisor).unwrap());
    add_terms(tie, scale.product(multiplier, tie.raise()), row);
    multiplier
}

// Writes one multiplier for each standing tie in order, and one for the tie that contradicts them.
pub fn refute<S: Scale>(tie: &SoundTie<S>, table: &Table, pivot: &Pivot, multipliers: &mut [u32])
    requires within { Within (S.Scale.meaning tie.now.scale.now) (shape tie.now.layout.now) }
    requires stands { Stands (S.Scale.meaning tie.now.scale.now) (shape tie.now.layout.now) table.now }
    requires measures { Measures (S.Scale.meaning tie.now.scale.now) (shape tie.now.layout.now) (equation tie.now.tie) table.now.rows.items pivot.now None }
    requires room { vec_len table.now.standing < length multipliers.old }
    ensures { let es = ledger table.now ++ (equation tie.now.tie ∷ []) in Refutes (S.Scale.meaning tie.now.scale.now) (shape tie.now.layout.now) es multipliers.new × Keeps (length es) multipliers.old multipliers.new }
{
    let count = table.standing.len();
    let scale = tie.scale;
    let layout = tie.layout;
    let lead = scale.step_power(pivot.fixed(scale));
    let mut row = [0; 32];
    add_terms(tie, scale.product(lead, tie.raise()), &mut row);
    multipliers[count] = lead;
    for (k, standing) in table.standing.iter().enumerate().rev() {
        let tie = SoundTie {
            scale,
            layout,
            tie: standing.tie.tie(),
        };
        multipliers[k] = settle(&tie, &standing.pivot, &mut row);
    }
}
