// A book that has taken the ties of a file.

ghost use Rattle.std.specs.Prelude.{◌≡◌, MatchResult};
ghost use Rattle.counter_ties_c.specs.Filling.{FilledBy};
ghost use Rattle.report.specs.Reported.{ReportStopped};

use book::fault::Stop;
use book::{Book, Open};
use report::fault::ReportFault;
use report::opening::open;
use scales::AnyScale;
use std::alloc::Global;
use tie_file::verify;

// The book, and what posting the ties answered.
#[derive(Drop)]
pub struct Filled {
    pub book: Book<AnyScale, Open>,
    pub posted: Result<usize, Stop>,
}

// Opens a book by the file's own mark and layout, and posts the file's ties until one is refused.
pub fn fill(heap: Global, file: &[u8], multipliers: &mut [u32]) -> Result<Filled, ReportFault>
    ensures { let f = file.now in MatchResult result (FilledBy f multipliers.old multipliers.new) (λ g. ReportStopped f g × (multipliers.new ≡ multipliers.old)) }
{
    let whole = verify(file)?;
    let mut book = open(heap, &whole)?;
    let posted = book.post_all(&whole, multipliers);
    Ok(Filled { book, posted })
}
