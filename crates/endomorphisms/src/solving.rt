// Solving a table of equations between elements of the group.

ghost use Rattle.std.specs.Prelude.{◌≡◌, MatchResult, OnErr};
ghost use Rattle.book.specs.Loading.{Grown};
ghost use Rattle.book.specs.Standing.{ledger};
ghost use Rattle.ties.specs.Layouts.{Shape, shape};
ghost use Rattle.endomorphisms.specs.Equations.{table_of, ties_of};
ghost use Rattle.endomorphisms.specs.Solving.{Decided, Proper, SolveListing, SolveStopped, Solved, TableAnswered, TableListing, taken_of};

use crate::equation::HeadEquation;
use crate::fault::{SolveFault, Stop};
use book::{Book, Open};
use scale::Scale;
use std::alloc::Global;
use ties::layout::Layout;

// Draws the sheet of all assignments that solve the table, and answers the number of free digits. Where none does,
// `multipliers` then begins with those that show it for the ties up to the one that is refused.
pub fn solve<S: Scale + Drop>(
    heap: Global,
    scale: S,
    heads: u8,
    widths: &[u8],
    table: &[HeadEquation],
    sheet: &mut [u32],
    multipliers: &mut [u32],
) -> Result<u16, SolveFault>
    ensures answer { let m = S.Scale.meaning scale in let s : Shape = record { heads = heads; widths = widths.now } in MatchResult result (Solved m s (table_of table.now) multipliers.old sheet.old sheet.new) (SolveStopped m s (table_of table.now) multipliers.old sheet.old) }
    ensures decided { let m = S.Scale.meaning scale in let s : Shape = record { heads = heads; widths = widths.now } in Proper m s (table_of table.now) multipliers.old sheet.old → Decided m s (table_of table.now) result }
    ensures list { let m = S.Scale.meaning scale in let s : Shape = record { heads = heads; widths = widths.now } in SolveListing m s (table_of table.now) result multipliers.old multipliers.new }
    ensures kept { OnErr result (sheet.new ≡ sheet.old) }
{
    let layout = Layout::new(&scale, heads, widths)?;
    let mut book = Book::new(heap, scale, heads, widths)?;
    post_table(&mut book, &layout, table, multipliers)?;
    Ok(book.sheet(sheet)?)
}

// Posts the ties of the table in order until one is refused. Those before it stand.
fn post_table<S: Scale>(
    book: &mut Book<S, Open>,
    layout: &Layout,
    table: &[HeadEquation],
    multipliers: &mut [u32],
) -> Result<(), Stop>
    requires { shape layout.now ≡ shape book.old.layout }
    ensures answer { let s = shape book.old.layout in TableAnswered (S.Scale.meaning book.old.scale) s (ledger book.old.table) (ties_of s (table_of table.now)) multipliers.old result }
    ensures book { let s = shape book.old.layout in let fs = ties_of s (table_of table.now) in Grown book.old fs (taken_of s fs result) book.new }
    ensures list { let s = shape book.old.layout in TableListing (S.Scale.meaning book.old.scale) s (ledger book.old.table) (ties_of s (table_of table.now)) result multipliers.old multipliers.new }
{
    for (row, equation) in table.iter().enumerate() {
        for counter in 0..layout.counters() {
            let tie = equation.tie(layout, counter);
            book.post(&tie.tie(), multipliers).map_err(|fault| Stop {
                equation: row,
                counter,
                fault,
            })?;
        }
    }
    Ok(())
}
