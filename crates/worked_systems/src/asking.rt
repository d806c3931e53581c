// What is asked of scales and books.

ghost use Rattle.std.specs.Prelude.{◌≡◌, ℕ, ◌<◌, ◌==◌, false, replicate, slice_index_or, MatchResult};
ghost use Rattle.scale.specs.Meaning.{reading};
ghost use Rattle.ties.specs.Equations.{equation};
ghost use Rattle.ties.specs.Faults.{Faulty};
ghost use Rattle.ties.specs.Layouts.{shape};
ghost use Rattle.book.specs.Posting.{Posted, PostedTo};
ghost use Rattle.book.specs.Querying.{SettledDigits};
ghost use Rattle.book.specs.Standing.{ledger};
ghost use Rattle.worked_systems.specs.Worked as worked;

use book::fault::PostFault;
use book::{Book, Open};
use scale::Scale;
use ties::fault::TieFault;
use ties::tie::{Term, Tie};

// A factor at a counter of a head.
pub fn term(head: u8, counter: u8, factor: u32) -> Term
    ensures { result ≡ worked.term head counter factor }
{
    Term {
        head,
        counter,
        factor,
    }
}

// The tie that these terms come to a right side, up to the digits of a target.
pub fn tie<'t>(target: u8, right: u32, terms: &'t [Term]) -> Tie<'t>
    ensures { equation result ≡ worked.tie target right terms.now }
{
    Tie {
        target,
        right,
        terms,
    }
}

// Which of the codes 0 to 7 have the product `a` with `b`.
pub fn quotients<S: Scale>(scale: &S, a: u32, b: u32) -> [bool; 8]
    ensures { let m = S.Scale.meaning scale.now in (c : ℕ) → c < 8 → slice_index_or result c false ≡ (m.product (reading m b) (reading m c) == a) }
{
    let mut found = [false; 8];
    for (c, is_quotient) in found.iter_mut().enumerate() {
        *is_quotient = scale.product(b, c as u32) == a;
    }
    found
}

// Posts a tie, with a list for the multipliers that nobody looks at.
pub fn post<S: Scale>(book: &mut Book<S, Open>, tie: &Tie) -> Result<u8, PostFault>
    ensures answer { PostedTo S.Scale.meaning book.old (equation tie.now) (replicate 64 0) result }
    ensures book { Posted S.Scale.meaning book.old (equation tie.now) result book.new }
{
    book.post(tie, &mut [0; 64])
}

// How many digits of a tie's value the standing ties settle.
pub fn settled<S: Scale>(book: &Book<S, Open>, tie: &Tie) -> Result<u8, TieFault>
    ensures { let b = book.now in let m = S.Scale.meaning b.scale in let s = shape b.layout in let e = equation tie.now in MatchResult result (SettledDigits m s (ledger b.table) e) (Faulty m s e) }
{
    Ok(book.query(tie)?.settled)
}
