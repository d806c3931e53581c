ghost use Rattle.book.specs.Withdrawing.{Withdrawn};

use crate::book::{Book, Open};
use crate::fault::WithdrawFault;
use crate::taking::give_back;
use scale::Scale;

impl<S: Scale> Book<S, Open> {
    // Takes off the last tie.
    pub fn withdraw(&mut self) -> Result<(), WithdrawFault>
        ensures { Withdrawn self.old result self.new }
    {
        if self.table.standing.is_empty() {
            return Err(WithdrawFault::Nothing);
        }
        let last = self.table.standing.take_last();
        give_back(&self.scale, &mut self.table, &last);
        Ok(())
    }
}
