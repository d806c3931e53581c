ghost use Rattle.std.specs.Prelude.{◌≡◌, MatchResult};
ghost use Rattle.book.specs.declared.fault.OpenFault.TheVariants.{Memory};
ghost use Rattle.worked_systems.specs.Found.{NoTermsFound};
ghost use Rattle.worked_systems.specs.Worked as worked;

use crate::asking::{post, tie};
use crate::findings::NoTerms;
use book::Book;
use book::fault::OpenFault;
use scale::Scale;
use std::alloc::Global;

// Ties without terms. The refused one leaves the book empty.
pub fn find_no_terms<S: Scale + Drop>(heap: Global, scale: S) -> Result<NoTerms, OpenFault>
    requires { S.Scale.meaning scale ≡ worked.binary }
    ensures { MatchResult result NoTermsFound (λ fault. fault ≡ Memory) }
{
    let mut book = Book::new(heap, scale, 2, &[3])?;
    let right_one = post(&mut book, &tie(0, 1, &[]));
    let right_none = post(&mut book, &tie(0, 0, &[]));
    Ok(NoTerms {
        right_one,
        right_none,
    })
}
