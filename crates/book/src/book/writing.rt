ghost use Rattle.book.specs.Writing.{Again, WriteStopped, WrittenFrom};
ghost use Rattle.std.specs.Result.{MatchResult};

use crate::book::Book;
use crate::fault::WriteFault;
use scale::Scale;
use tie_file::writing::write;

impl<S: Scale, P> Book<S, P> {
    // Writes the tie file of the book's mark, layout and standing ties to the front of the list, and answers how long it
    // is.
    pub fn write(&self, list: &mut [u8]) -> Result<usize, WriteFault>
        ensures answer { MatchResult result (WrittenFrom S.Scale.meaning self.now list.old list.new) (λ _. WriteStopped self.now list.old list.new) }
        ensures again { Again S.Scale.meaning self.now list.old list.new result }
    {
        write(list, self.scale.mark(), &self.layout, &self.table.standing).ok_or(WriteFault::List)
    }
}
