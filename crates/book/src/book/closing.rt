ghost use Rattle.std.specs.Prelude.{◌≡◌};

use crate::book::{Book, Closed, Open};
use scale::Scale;
use std::marker::PhantomData;

impl<S: Scale> Book<S, Open> {
    // The same book, closed: it takes no ties until it is reopened.
    pub fn close(self) -> Book<S, Closed>
        ensures { result ≡ self }
    {
        self.in_phase::<Closed>()
    }
}

impl<S: Scale> Book<S, Closed> {
    // The same book, open again.
    pub fn reopen(self) -> Book<S, Open>
        ensures { result ≡ self }
    {
        self.in_phase::<Open>()
    }
}

impl<S: Scale, P> Book<S, P> {
    fn in_phase<Q>(self) -> Book<S, Q>
        ensures { result ≡ self }
    {
        let Book {
            scale,
            layout,
            table,
            phase: _,
        } = self;
        Book {
            scale,
            layout,
            table,
            phase: PhantomData,
        }
    }
}
