// A book: a scale, a layout, and the table of the standing ties.

ghost use Rattle.std.specs.Prelude.{◌≡◌};
ghost use Rattle.ties.specs.Layouts.{counters_of, shape};

use crate::table::Table;
use scale::Scale;
use std::marker::{Model, PhantomData};
use ties::layout::Layout;

// The phase in which a book takes ties.
pub struct Open;

// The phase in which a book takes no ties.
pub struct Closed;

// A book draws sheets, counts free digits, answers queries and writes files in both phases. The scale is a value of its
// own, so that one book serves every scale.
#[derive(Drop)]
pub struct Book<S: Scale, P> {
    scale: S,
    layout: Layout,
    table: Table,
    phase: PhantomData<P>,
}

impl<S: Scale, P> Model for Book<S, P> {
    ghost use Rattle.book.specs.Held.{Held, Ready};

    ghost Value = { Held S };

    ghost view = { λ b. record { scale = b.scale; layout = b.layout; table = b.table } };

    ghost invariant = { λ b. Ready S.Scale.meaning (record { scale = b.scale; layout = b.layout; table = b.table }) };
}

impl<S: Scale, P> Book<S, P> {
    pub fn scale(&self) -> &S
        ensures { result.now ≡ self.now.scale }
    {
        &self.scale
    }

    pub fn heads(&self) -> u8
        ensures { result ≡ (shape self.now.layout).heads }
    {
        self.layout.heads()
    }

    // The number of counters on each head.
    pub fn counters(&self) -> u8
        ensures { result ≡ counters_of (shape self.now.layout) }
    {
        self.layout.counters()
    }
}

mod closing;
mod drawing;
mod loading;
mod opening;
mod posting;
mod querying;
mod withdrawing;
mod writing;
