ghost use Rattle.book.specs.Posting.{Listed, Posted, PostedTo};
ghost use Rattle.ties.specs.Equations.{equation};

use crate::book::{Book, Open};
use crate::evidence::refute;
use crate::fault::PostFault;
use crate::measuring::measure;
use crate::pivot::Pivot;
use crate::taking::take_in;
use scale::Scale;
use ties::tie::Tie;

impl<S: Scale> Book<S, Open> {
    // Posts a tie, and answers how many digits it fixed. A tie that contradicts those standing is refused, and
    // `multipliers`, of 64 numbers or more, then begins with one for each of them in order and one for the tie.
    pub fn post(&mut self, tie: &Tie, multipliers: &mut [u32]) -> Result<u8, PostFault>
        ensures answer { PostedTo S.Scale.meaning self.old (equation tie.now) multipliers.old result }
        ensures book { Posted S.Scale.meaning self.old (equation tie.now) result self.new }
        ensures list { Listed S.Scale.meaning self.old (equation tie.now) result multipliers.old multipliers.new }
    {
        if multipliers.len() < 64 {
            return Err(PostFault::List);
        }
        let tie = tie.check(&self.scale, &self.layout)?;
        if self.table.standing.len() >= 64 {
            return Err(PostFault::Full);
        }
        let mut pivot = Pivot::default();
        match measure(&tie, &self.table.rows, &mut pivot) {
            Some(shift) => Ok(take_in(&tie, &mut self.table, pivot, shift)),
            None => {
                refute(&tie, &self.table, &pivot, multipliers);
                Err(PostFault::Contradiction)
            }
        }
    }
}
