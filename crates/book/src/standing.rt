// Standing ties.

ghost use Rattle.book.specs.Standing.{equation_of};

use crate::pivot::Pivot;
use tie_file::writing::Tied;
use ties::owned::OwnedTie;

// A tie, and the pivot step that it made: the pivot as it was, by how much of it the point was moved, and the free
// digits before the step.
#[derive(Drop)]
pub struct Standing {
    pub tie: OwnedTie,
    pub pivot: Pivot,
    pub shift: u32,
    pub free: u16,
}

impl Tied for Standing {
    ghost states = { equation_of };

    fn owned_tie(&self) -> &OwnedTie {
        &self.tie
    }
}
