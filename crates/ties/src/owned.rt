// Ties that own their terms.

ghost use Rattle.std.specs.Prelude.{◌≡◌};
ghost use Rattle.ties.specs.Equations.{equation, equation_in};

use crate::tie::{Term, Tie};
use arrayvec::ArrayVec;

// A tie of 32 terms at most, which are its own.
#[derive(Clone, PartialEq, Eq, Debug, Drop)]
pub struct OwnedTie {
    pub target: u8,
    pub right: u32,
    pub terms: ArrayVec<Term, 32>,
}

impl OwnedTie {
    pub fn tie(&self) -> Tie<'_>
        ensures { equation result ≡ equation_in self.now }
    {
        Tie {
            target: self.target,
            right: self.right,
            terms: &self.terms,
        }
    }
}
