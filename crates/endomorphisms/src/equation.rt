// Equations between elements of the group, and the ties that they are.

ghost use Rattle.std.specs.Prelude.{◌≡◌, ◌<◌, ◌↔◌};
ghost use Rattle.scale.specs.Meaning.{Laws, Meaning};
ghost use Rattle.ties.specs.Layouts.{Assigns, Assignment, counters_of, shape};
ghost use Rattle.ties.specs.Equations.{Meets, equation_in};
ghost use Rattle.ties.specs.Faults.{Sound};
ghost use Rattle.endomorphisms.specs.Equations.{CodedAt, HoldsAt, OverGroup, factors, group_equation, tie_of};

use crate::matrix::Matrix;
use arrayvec::ArrayVec;
use ties::layout::Layout;
use ties::owned::OwnedTie;
use ties::tie::Term;

// The sum of matrix times element, over the heads, is the right side. A head without a matrix does not occur.
#[derive(Clone, Copy, Debug)]
pub struct HeadEquation<'a> {
    pub factors: &'a [Matrix],
    pub right: [u32; 4],
}

impl HeadEquation<'_> {
    // The tie that the equation is at one counter: it has a term for each counter of each head, in order.
    // Endomorphisms and an element make it sound.
    pub fn tie(&self, layout: &Layout, counter: u8) -> OwnedTie
        ensures tie { equation_in result ≡ tie_of (shape layout.now) (group_equation self.now) counter }
        ensures means { let s = shape layout.now in let e = group_equation self.now in (m : Meaning) → Laws m → CodedAt m s e counter → (x : Assignment) → Assigns m s x → Meets m s (equation_in result) x ↔ HoldsAt m s e x counter }
        ensures sound { let s = shape layout.now in let e = group_equation self.now in (m : Meaning) → Laws m → OverGroup m s e → counter < counters_of s → Sound m s (equation_in result) }
    {
        let mut terms = ArrayVec::new();
        for head in 0..layout.heads() {
            for source in 0..layout.counters() {
                terms.push(Term {
                    head,
                    counter: source,
                    factor: self.factor(head, counter, source),
                });
            }
        }
        OwnedTie {
            target: counter,
            right: self.right.get(usize::from(counter)).copied().unwrap_or(0),
            terms,
        }
    }

    // The number by which a counter of a head goes into a counter of the result, and 0 for a head without a matrix.
    fn factor(&self, head: u8, target: u8, source: u8) -> u32
        ensures { result ≡ factors (group_equation self.now) head target source }
    {
        match self.factors.get(usize::from(head)) {
            Some(matrix) => matrix.number(target, source),
            None => 0,
        }
    }
}
