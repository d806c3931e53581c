ghost use Rattle.book.specs.Drawing.{DrawStopped, DrawnFrom, free_of};
ghost use Rattle.std.specs.Prelude.{◌≡◌};
ghost use Rattle.book.specs.Standing.{ledger};
ghost use Rattle.std.specs.Result.{MatchResult};
ghost use Rattle.ties.specs.Equations.{Count};
ghost use Rattle.ties.specs.Layouts.{shape};

use crate::book::Book;
use crate::fault::SheetFault;
use scale::Scale;

impl<S: Scale, P> Book<S, P> {
    // Writes the sheet to the front of the list, the point and then the generators, and answers the number of free
    // digits.
    pub fn sheet(&self, list: &mut [u32]) -> Result<u16, SheetFault>
        ensures { MatchResult result (DrawnFrom S.Scale.meaning self.now list.old list.new) (λ _. DrawStopped self.now list.old list.new) }
    {
        let size = self.table.rows.len();
        if list.len() < size {
            return Err(SheetFault::List);
        }
        list[..size].copy_from_slice(&self.table.rows);
        Ok(self.table.free)
    }

    // The number of free digits, which a sheet answers too: as many different assignments meet the standing ties as
    // there are numbers of so many digits.
    pub fn free_digits(&self) -> u16
        ensures count { let b = self.now in Count (S.Scale.meaning b.scale) (shape b.layout) (ledger b.table) result }
        ensures same { result ≡ free_of self.now }
    {
        self.table.free
    }
}
