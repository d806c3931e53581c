// Rows of codes.

ghost use Rattle.std.specs.Prelude.{◌≡◌, Decides, ℕ, ◌+◌, ◌*◌, ◌<◌, ◌≤◌, [], length, slice_index};
ghost use Rattle.book.specs.Measures.{Totals};
ghost use Rattle.book.specs.Rows.{Codes, row_of};
ghost use Rattle.book.specs.Sheets.{generator_of};
ghost use Rattle.scale.specs.Meaning.{Code};
ghost use Rattle.ties.specs.Equations.{code_at, equation, total};
ghost use Rattle.ties.specs.Layouts.{Has, places, shape};

use arrayvec::ArrayVec;
use scale::Scale;
use ties::sound::SoundTie;

// The sum of factor times code, over a tie's terms, at a row. Where many ties stand, most rows are 0: a tie of many terms
// looks for that first.
pub fn total_at<S: Scale>(tie: &SoundTie<S>, row: &[u32]) -> u32
    requires codes { Codes (S.Scale.meaning tie.now.scale.now) row.now }
    requires whole { places (shape tie.now.layout.now) ≤ length row.now }
    ensures { let m = S.Scale.meaning tie.now.scale.now in Code m result × (result ≡ total m tie.now.tie.terms.now (row_of (shape tie.now.layout.now) row.now)) }
{
    if tie.tie.terms.is_empty() {
        return 0;
    }
    if let [term] = tie.tie.terms {
        let code = row[tie.layout.place(term.head, term.counter)];
        return tie.scale.product(term.factor, code);
    }
    if row.len() / 2 <= tie.tie.terms.len() && is_zero(row) {
        return 0;
    }
    let mut total = 0;
    for term in tie.tie.terms {
        let code = row[tie.layout.place(term.head, term.counter)];
        total = tie.scale.gather(total, term.factor, code);
    }
    tie.scale.gathered(total)
}

// The greatest number tells, and a compiler finds it four numbers at a time.
fn is_zero(row: &[u32]) -> bool
    ensures { Decides result ((j : ℕ) → j < length row.now → slice_index row.now j ≡ 0) }
{
    let mut greatest = 0;
    for code in row {
        greatest = greatest.max(*code);
    }
    greatest == 0
}

// The same at each generator, in an empty list that is lent.
pub fn totals_at<S: Scale>(tie: &SoundTie<S>, rows: &[u32], totals: &mut ArrayVec<u32, 32>)
    requires codes { Codes (S.Scale.meaning tie.now.scale.now) rows.now }
    requires size { let n = places (shape tie.now.layout.now) in length rows.now ≡ n + n * n }
    requires blank { totals.old.items ≡ [] }
    ensures { Totals (S.Scale.meaning tie.now.scale.now) (shape tie.now.layout.now) (equation tie.now.tie) rows.now totals.new.items }
{
    let n = tie.layout.places();
    for i in 0..n {
        let at = n + i * n;
        totals.push(total_at(tie, &rows[at..at + n]));
    }
}

// Adds `by` times a row to another.
pub fn add_multiple<S: Scale>(scale: &S, to: &mut [u32], from: &[u32], by: u32)
    requires codes { Codes (S.Scale.meaning scale.now) to.old × Codes (S.Scale.meaning scale.now) from.now × Code (S.Scale.meaning scale.now) by }
    requires long { length to.old ≤ length from.now }
    ensures codes { Codes (S.Scale.meaning scale.now) to.new }
    ensures added { let m = S.Scale.meaning scale.now in (j : ℕ) → j < length to.old → slice_index to.new j ≡ m.sum (slice_index to.old j) (m.product by (slice_index from.now j)) }
{
    if by == 0 {
        return;
    }
    scale.add_multiple(to, by, from);
}

// Multiplies a row by `by`.
pub fn multiply<S: Scale>(scale: &S, row: &mut [u32], by: u32)
    requires codes { Codes (S.Scale.meaning scale.now) row.old × Code (S.Scale.meaning scale.now) by }
    ensures codes { Codes (S.Scale.meaning scale.now) row.new }
    ensures multiplied { let m = S.Scale.meaning scale.now in (j : ℕ) → j < length row.old → slice_index row.new j ≡ m.product by (slice_index row.old j) }
{
    if by == scale.one() {
        return;
    }
    for code in row.iter_mut() {
        *code = scale.product(by, *code);
    }
}
