ghost use Rattle.std.specs.Prelude.{◌≡◌, MatchResult};
ghost use Rattle.book.specs.declared.fault.OpenFault.TheVariants.{Memory};
ghost use Rattle.worked_systems.specs.Found.{PairFound};
ghost use Rattle.worked_systems.specs.Worked as worked;

use crate::asking::{post, settled, term, tie};
use crate::findings::Pair;
use book::Book;
use book::fault::OpenFault;
use multipliers::check;
use scale::Scale;
use std::alloc::Global;

// Binary, length 3, two heads with one counter of width 3: 2x + 4y = 6, and 4x = 0.
const TWO_TIES: [u8; 50] = [
    3, 1, 16, 0, 6, 0, 2, 22, 0, 17, 0, 2, 39, 0, 11, 0, // the table
    1, 2, 3, 2, 1, 3, // the layout
    0, 6, 0, 0, 0, 0, 0, 2, 0, 0, 0, 1, 0, 4, 0, 0, 0, // 2x + 4y = 6
    0, 0, 0, 0, 0, 0, 0, 4, 0, 0, 0, // 4x = 0
];

// Two heads with one counter.
pub fn find_pair<S: Scale + Drop>(heap: Global, scale: S) -> Result<Pair, OpenFault>
    requires { S.Scale.meaning scale ≡ worked.binary }
    ensures { MatchResult result PairFound (λ fault. fault ≡ Memory) }
{
    let mut book = Book::new(heap, scale, 2, &[3])?;
    let free = book.free_digits();
    let both = [term(0, 0, 2), term(1, 0, 4)];
    let first = post(&mut book, &tie(0, 6, &both));
    let left = book.free_digits();
    let x = settled(&book, &tie(0, 0, &[term(0, 0, 1)]));
    let y = settled(&book, &tie(0, 0, &[term(1, 0, 1)]));
    let four_x = [term(0, 0, 4)];
    let other = post(&mut book, &tie(0, 0, &four_x));
    let two_and_seven = check(book.scale(), &TWO_TIES, &[2, 7]);
    let one_and_one = check(book.scale(), &TWO_TIES, &[1, 1]);
    let four_and_none = check(book.scale(), &TWO_TIES, &[4, 0]);
    let second = post(&mut book, &tie(0, 4, &four_x));
    Ok(Pair {
        free,
        first,
        left,
        x,
        y,
        other,
        two_and_seven,
        one_and_one,
        four_and_none,
        second,
    })
}
