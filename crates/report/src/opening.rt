// A book for the ties of a file.

ghost use Rattle.std.specs.Prelude.{MatchResult};
ghost use Rattle.report.specs.Reported.{NamedBy, OpenedFor, OpenedOver, ReportStopped};

use crate::fault::ReportFault;
use book::{Book, Open};
use scale::Scale;
use scales::AnyScale;
use std::alloc::Global;
use tie_file::file::TieFile;

// A book over the scale of the file's mark and the file's layout, in which no tie stands.
pub fn open(heap: Global, file: &TieFile) -> Result<Book<AnyScale, Open>, ReportFault>
    ensures { let f = file.now in MatchResult result (OpenedFor f) (ReportStopped f) }
{
    open_over(heap, AnyScale::from_mark(file.layout().mark)?, file)
}

// The same over a scale that was made of the file's mark.
pub fn open_over<S: Scale + Drop>(
    heap: Global,
    scale: S,
    file: &TieFile,
) -> Result<Book<S, Open>, ReportFault>
    requires { NamedBy file.now (S.Scale.meaning scale) }
    ensures { let f = file.now in MatchResult result (OpenedOver S.Scale.meaning f) (ReportStopped f) }
{
    let stated = file.layout();
    Ok(Book::new(heap, scale, stated.heads, stated.widths)?)
}
