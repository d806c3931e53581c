// Ties that passed the checks.

ghost use Rattle.std.proofs.Props.{props};
ghost use Rattle.std.specs.Prelude.{◌≡◌, ◌-◌};
ghost use Rattle.scale.specs.Meaning.{digits, power};
ghost use Rattle.ties.specs.Equations.{depth, equation, equation_in};
ghost use Rattle.ties.specs.Faults.{Sound};
ghost use Rattle.ties.specs.Layouts.{shape};
ghost use Rattle.ties.specs.Propositions.{Above_prop};

use crate::layout::Layout;
use crate::owned::OwnedTie;
use crate::tie::Tie;
use arrayvec::ArrayVec;
use scale::Scale;

// A tie that passed the checks, with the scale and the layout that it passed them for.
pub struct SoundTie<'s, 't, S: Scale> {
    pub scale: &'s S,
    pub layout: &'s Layout,
    pub tie: Tie<'t>,
    pub ghost sound: { Sound (S.Scale.meaning scale.now) (shape layout.now) (equation tie) } by { Prim.hlevel (props, Above_prop) },
}

impl<S: Scale> SoundTie<'_, '_, S> {
    // What raises the tie to full length: a power of the step.
    pub fn raise(&self) -> u32
        ensures { let m = S.Scale.meaning self.now.scale.now in result ≡ power m (digits m - depth (shape self.now.layout.now) (equation self.now.tie)) }
    {
        let depth = self.layout.width(self.tie.target);
        let raised = self.scale.mark().length.saturating_sub(depth);
        self.scale.step_power(raised)
    }

    // The tie with terms of its own: since they rise, there are 32 at most.
    pub fn to_owned(&self) -> OwnedTie
        ensures { equation_in result ≡ equation self.now.tie }
    {
        let mut owned = OwnedTie {
            target: self.tie.target,
            right: self.tie.right,
            terms: ArrayVec::new(),
        };
        owned.terms.try_extend_from_slice(self.tie.terms).unwrap();
        owned
    }
}

// A derive would ask it of the scale too, which is only borrowed.
impl<S: Scale> Drop for SoundTie<'_, '_, S> {
    fn drop(self) {
        let SoundTie {
            scale: _,
            layout: _,
            tie: _,
        } = self;
    }
}
