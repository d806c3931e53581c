ghost use Rattle.book.specs.Opening.{OpenStopped, Opened};
ghost use Rattle.std.specs.Result.{MatchResult};
ghost use Rattle.ties.specs.Layouts.{Shape};

use crate::book::{Book, Open};
use crate::empty::empty_table;
use crate::fault::OpenFault;
use scale::Scale;
use std::alloc::Global;
use std::marker::PhantomData;
use ties::layout::Layout;

impl<S: Scale + Drop> Book<S, Open> {
    // A book in which no tie stands. All its memory is taken here, so that no later call can want for it.
    pub fn new(heap: Global, scale: S, heads: u8, widths: &[u8]) -> Result<Book<S, Open>, OpenFault>
        ensures { let s : Shape = record { heads = heads; widths = widths.now } in MatchResult result (Opened S.Scale.meaning scale s) (OpenStopped (S.Scale.meaning scale) s) }
    {
        let layout = Layout::new(&scale, heads, widths)?;
        let table = empty_table(heap, &scale, &layout)?;
        Ok(Book {
            scale,
            layout,
            table,
            phase: PhantomData,
        })
    }
}
