// A multiple of a tie's terms, added up by counters.

ghost use Rattle.std.specs.Prelude.{◌≡◌, ℕ, ◌≤◌, length, slice_index};
ghost use Rattle.multipliers.specs.Refuting.{factor_at};
ghost use Rattle.multipliers.specs.Totals.{Codes, Shares};
ghost use Rattle.scale.specs.Meaning.{Code};
ghost use Rattle.ties.specs.Layouts.{places, shape};

use scale::Scale;
use ties::sound::SoundTie;

// Adds `by` times each factor to the number at its counter's place, and keeps those behind all places. Where these are
// codes, so is what it writes.
pub fn add_terms<S: Scale>(tie: &SoundTie<S>, by: u32, row: &mut [u32; 32])
    ensures whole { length row.new ≡ 32 }
    ensures rest { (i : ℕ) → places (shape tie.now.layout.now) ≤ i → slice_index row.new i ≡ slice_index row.old i }
    ensures codes { let m = S.Scale.meaning tie.now.scale.now in Code m by → Codes m row.old → Codes m row.new }
    ensures added { let m = S.Scale.meaning tie.now.scale.now in Code m by → Codes m row.old → Shares m (shape tie.now.layout.now) (λ h c. m.product by (factor_at m tie.now.tie.terms.now h c)) row.old row.new }
{
    for term in tie.tie.terms {
        let at = tie.layout.place(term.head, term.counter);
        row[at] = tie.scale.add_product(row[at], by, term.factor);
    }
}
