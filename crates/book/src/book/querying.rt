ghost use Rattle.book.specs.Querying.{QueriedFrom, QueryStopped};
ghost use Rattle.std.specs.Result.{MatchResult};
ghost use Rattle.ties.specs.Equations.{equation};

use crate::book::Book;
use crate::reading::Reading;
use crate::rows::{total_at, totals_at};
use crate::settling::settled_digits;
use arrayvec::ArrayVec;
use scale::Scale;
use ties::fault::TieFault;
use ties::tie::Tie;

impl<S: Scale, P> Book<S, P> {
    // Answers the value of a tie at the point, and how many of its digits are the same at all assignments that meet
    // the standing ties. The tie is not posted.
    pub fn query(&self, tie: &Tie) -> Result<Reading, TieFault>
        ensures { let b = self.now in let e = equation tie.now in MatchResult result (QueriedFrom S.Scale.meaning b e) (QueryStopped S.Scale.meaning b e) }
    {
        let sound = tie.check(&self.scale, &self.layout)?;
        let rows: &[u32] = &self.table.rows;
        let total = total_at(&sound, &rows[..self.layout.places()]);
        let mut totals = ArrayVec::new();
        totals_at(&sound, rows, &mut totals);
        Ok(Reading {
            value: self.scale.sum(total, self.scale.negative(tie.right)),
            settled: settled_digits(&sound, &totals),
        })
    }
}
