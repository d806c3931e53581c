// The checks on the terms of a tie: each goes over all of them and names the first at fault.

ghost use Rattle.std.specs.Prelude.{◌≡◌, ℕ, suc, ◌+◌, ◌<◌, ◌≤◌, T, length, Decides, MatchResult};
ghost use Rattle.scale.specs.Meaning.{Code};
ghost use Rattle.ties.specs.Equations.{term_at};
ghost use Rattle.ties.specs.Faults.{Above, Coded, Exists, FailsFirst, Fine, Passes, Rises};
ghost use Rattle.ties.specs.Layouts.{shape, width_of};

use crate::fault::TermFault;
use crate::layout::Layout;
use crate::tie::Term;
use scale::{Scale, is_code};

pub fn exist(layout: &Layout, terms: &[Term]) -> Result<(), TermFault>
    ensures { let P = Exists (shape layout.now) terms.now in let n = length terms.now in MatchResult result (λ _. Passes P n) (λ f. (i : ℕ) × (f ≡ TermFault.Absent i) × FailsFirst P n i) }
{
    for (i, term) in terms.iter().enumerate() {
        if term.head >= layout.heads() || term.counter >= layout.counters() {
            return Err(TermFault::Absent(i));
        }
    }
    Ok(())
}

pub fn rise(terms: &[Term]) -> Result<(), TermFault>
    ensures { let P = Rises terms.now in let n = length terms.now in MatchResult result (λ _. Passes P n) (λ f. (i : ℕ) × (f ≡ TermFault.Order i) × FailsFirst P n i) }
{
    for (i, term) in terms.iter().enumerate() {
        if i > 0 && !above(term, &terms[i - 1]) {
            return Err(TermFault::Order(i));
        }
    }
    Ok(())
}

// Whether `term` stands above `other`: by head, then by counter.
fn above(term: &Term, other: &Term) -> bool
    ensures { Decides result (Above term.now other.now) }
{
    (term.head, term.counter) > (other.head, other.counter)
}

pub fn codes<S: Scale>(scale: &S, terms: &[Term], right: u32) -> Result<(), TermFault>
    ensures { let P = Coded (S.Scale.meaning scale.now) terms.now right in let n = suc (length terms.now) in MatchResult result (λ _. Passes P n) (λ f. (i : ℕ) × (f ≡ TermFault.NoCode i) × FailsFirst P n i) }
{
    for (i, term) in terms.iter().enumerate() {
        if !is_code(scale, term.factor) {
            return Err(TermFault::NoCode(i));
        }
    }
    if !is_code(scale, right) {
        return Err(TermFault::NoCode(terms.len()));
    }
    Ok(())
}

pub fn fine<S: Scale>(
    scale: &S,
    layout: &Layout,
    target: u8,
    terms: &[Term],
) -> Result<(), TermFault>
    requires { (i : ℕ) → i < length terms.now → Code (S.Scale.meaning scale.now) (term_at terms.now i).factor }
    ensures { let s = shape layout.now in let P = Fine (S.Scale.meaning scale.now) s (width_of s target) terms.now in let n = length terms.now in MatchResult result (λ _. Passes P n) (λ f. (i : ℕ) × (f ≡ TermFault.Coarse i) × FailsFirst P n i) }
{
    let depth = layout.width(target);
    for (i, term) in terms.iter().enumerate() {
        if !reaches(scale, layout, depth, term) {
            return Err(TermFault::Coarse(i));
        }
    }
    Ok(())
}

// Whether the level of the factor, a code, and the width of its counter make up `depth`.
fn reaches<S: Scale>(scale: &S, layout: &Layout, depth: u8, term: &Term) -> bool
    requires { Code (S.Scale.meaning scale.now) term.now.factor }
    ensures { Decides result (depth ≤ (S.Scale.meaning scale.now).level term.now.factor + width_of (shape layout.now) term.now.counter) }
{
    let width = layout.width(term.counter);
    depth <= width || depth - width <= scale.level(term.factor)
}
