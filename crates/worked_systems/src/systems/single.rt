ghost use Rattle.std.specs.Prelude.{◌≡◌, MatchResult};
ghost use Rattle.book.specs.declared.fault.OpenFault.TheVariants.{Memory};
ghost use Rattle.worked_systems.specs.Found.{SingleFound};
ghost use Rattle.worked_systems.specs.Worked as worked;

use crate::asking::{post, term, tie};
use crate::findings::Single;
use book::Book;
use book::fault::OpenFault;
use multipliers::check;
use scale::Scale;
use std::alloc::Global;

// Base 3, length 2, one head with one counter of width 2: 3x = 4.
const ONE_TIE: [u8; 28] = [
    2, 1, 11, 0, 6, 0, 2, 17, 0, 11, 0, // the table
    2, 3, 2, 1, 1, 2, // the layout
    0, 4, 0, 0, 0, 0, 0, 3, 0, 0, 0, // 3x = 4
];

// One head with one counter. The refused tie leaves the book empty.
pub fn find_single<S: Scale + Drop>(heap: Global, scale: S) -> Result<Single, OpenFault>
    requires { S.Scale.meaning scale ≡ worked.ternary }
    ensures { MatchResult result SingleFound (λ fault. fault ≡ Memory) }
{
    let mut book = Book::new(heap, scale, 1, &[2])?;
    let three_x = [term(0, 0, 3)];
    let four = post(&mut book, &tie(0, 4, &three_x));
    let three = check(book.scale(), &ONE_TIE, &[3]);
    let six = post(&mut book, &tie(0, 6, &three_x));
    let left = book.free_digits();
    Ok(Single {
        four,
        three,
        six,
        left,
    })
}
