// How many digits of each counter's own code the standing ties of a book settle.

ghost use Rattle.std.specs.Prelude.{◌≡◌, ℕ, ◌≤◌, slice_index};
ghost use Rattle.book.specs.Standing.{ledger};
ghost use Rattle.report.specs.Reported.{SettledAt};
ghost use Rattle.ties.specs.Layouts.{Has, place, places, shape};

use book::{Book, Open};
use scale::Scale;
use ties::tie::{Term, Tie};

// Of each counter, in the order head, then counter, and 0 behind the last.
pub fn settled_digits<S: Scale>(book: &Book<S, Open>) -> [u8; 32]
    ensures counters { let b = book.now in ((h c : ℕ) → Has (shape b.layout) h c → SettledAt (S.Scale.meaning b.scale) (shape b.layout) (ledger b.table) h c (slice_index result (place (shape b.layout) h c))) }
    ensures rest { (i : ℕ) → places (shape book.now.layout) ≤ i → slice_index result i ≡ 0 }
{
    let counters = usize::from(book.counters());
    let places = usize::from(book.heads()) * counters;
    let mut settled = [0; 32];
    for (i, digits) in settled[..places].iter_mut().enumerate() {
        let head = (i / counters) as u8;
        let counter = (i % counters) as u8;
        *digits = settled_at(book, head, counter);
    }
    settled
}

// Of one counter: the settled digits of the tie that its code is 0.
fn settled_at<S: Scale>(book: &Book<S, Open>, head: u8, counter: u8) -> u8
    requires { Has (shape book.now.layout) head counter }
    ensures { let b = book.now in SettledAt (S.Scale.meaning b.scale) (shape b.layout) (ledger b.table) head counter result }
{
    let terms = [Term {
        head,
        counter,
        factor: book.scale().one(),
    }];
    let tie = Tie {
        target: counter,
        right: 0,
        terms: &terms,
    };
    book.query(&tie).unwrap().settled
}
