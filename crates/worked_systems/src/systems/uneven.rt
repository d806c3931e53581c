ghost use Rattle.std.specs.Prelude.{◌≡◌, MatchResult};
ghost use Rattle.book.specs.declared.fault.OpenFault.TheVariants.{Memory};
ghost use Rattle.worked_systems.specs.Found.{UnevenFound};
ghost use Rattle.worked_systems.specs.Worked as worked;

use crate::asking::{post, term, tie};
use crate::findings::Uneven;
use book::Book;
use book::fault::OpenFault;
use scale::Scale;
use std::alloc::Global;

// One head with two counters.
pub fn find_uneven<S: Scale + Drop>(heap: Global, scale: S) -> Result<Uneven, OpenFault>
    requires { S.Scale.meaning scale ≡ worked.binary }
    ensures { MatchResult result UnevenFound (λ fault. fault ≡ Memory) }
{
    let mut book = Book::new(heap, scale, 1, &[3, 1])?;
    let factor_two = post(&mut book, &tie(0, 0, &[term(0, 1, 2)]));
    let factor_four = post(&mut book, &tie(0, 0, &[term(0, 1, 4)]));
    book.withdraw().unwrap();
    let sum = post(&mut book, &tie(1, 1, &[term(0, 0, 1), term(0, 1, 1)]));
    let left = book.free_digits();
    Ok(Uneven {
        factor_two,
        factor_four,
        sum,
        left,
    })
}
