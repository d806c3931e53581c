// The report on a book to which the ties of a file are posted.

ghost use Rattle.std.specs.Prelude.{◌≡◌, []};
ghost use Rattle.book.specs.Loading.{accepted_of};
ghost use Rattle.book.specs.Standing.{ledger};
ghost use Rattle.report.specs.Reported.{Digits, Reported, stop_of};
ghost use Rattle.tie_file.specs.Bodies.{equations};
ghost use Rattle.ties.specs.Layouts.{shape};

use crate::answer::Report;
use crate::settling::settled_digits;
use book::fault::Stop;
use book::{Book, Open};
use scale::Scale;
use tie_file::file::TieFile;

// Posts the ties of the file in order to an empty book until one is refused, and reports on it.
pub fn report_on<S: Scale>(book: &mut Book<S, Open>, file: &TieFile) -> Report
    requires { ledger book.old.table ≡ [] }
    ensures { let b = book.old in Reported (S.Scale.meaning b.scale) (shape b.layout) (equations file.now) result }
{
    let posted = book.post_all(file, &mut [0; 64]);
    sum_up(book, posted)
}

// The report on a book to which ties were posted with this answer.
fn sum_up<S: Scale>(book: &Book<S, Open>, posted: Result<usize, Stop>) -> Report
    ensures standing { result.standing ≡ accepted_of posted }
    ensures stopped { result.stopped ≡ stop_of posted }
    ensures digits { let b = book.now in Digits (S.Scale.meaning b.scale) (shape b.layout) (ledger b.table) result }
{
    let (standing, stopped) = match posted {
        Ok(ties) => (ties, None),
        Err(stop) => (stop.tie, Some(stop)),
    };
    Report {
        standing,
        free: book.free_digits(),
        stopped,
        heads: book.heads(),
        counters: book.counters(),
        settled: settled_digits(book),
    }
}
