// Terms and ties.

ghost use Rattle.std.specs.Prelude.{◌≡◌, MatchResult};
ghost use Rattle.ties.specs.Equations.{equation};
ghost use Rattle.ties.specs.Faults.{Faulty, Sound};
ghost use Rattle.ties.specs.Layouts.{shape};

use crate::fault::TieFault;
use crate::layout::Layout;
use crate::sound::SoundTie;
use crate::terms;
use scale::Scale;

// A factor at a counter of a head.
#[derive(Clone, Copy, PartialEq, Eq, Debug, Default)]
pub struct Term {
    pub head: u8,
    pub counter: u8,
    pub factor: u32,
}

// The sum of factor times start value, over the terms, equals the right side
// up to the digits of the target counter.
#[derive(Clone, Copy, Debug)]
pub struct Tie<'a> {
    pub target: u8,
    pub right: u32,
    pub terms: &'a [Term],
}

impl<'t> Tie<'t> {
    // The checks on a tie, each over all terms before the next.
    pub fn check<'s, S: Scale>(
        &self,
        scale: &'s S,
        layout: &'s Layout,
    ) -> Result<SoundTie<'s, 't, S>, TieFault>
        ensures { let m = S.Scale.meaning scale.now in let s = shape layout.now in let e = equation self.now in MatchResult result (λ t. Sound m s e × (t.tie ≡ self.now) × (t.scale.now ≡ scale.now) × (t.layout.now ≡ layout.now)) (Faulty m s e) }
    {
        if self.target >= layout.counters() {
            return Err(TieFault::Target);
        }
        let terms = self.terms;
        terms::exist(layout, terms)?;
        terms::rise(terms)?;
        terms::codes(scale, terms, self.right)?;
        terms::fine(scale, layout, self.target, terms)?;
        Ok(SoundTie {
            scale,
            layout,
            tie: *self,
        })
    }
}
