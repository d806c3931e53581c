// The small systems, run on scales and books.

ghost use Rattle.std.specs.Prelude.{◌≡◌, MatchResult};
ghost use Rattle.book.specs.declared.fault.OpenFault.TheVariants.{Memory};
ghost use Rattle.scales.specs.Made.{binary as meaning_of_binary, disc as meaning_of_disc, prime as meaning_of_prime};
ghost use Rattle.worked_systems.specs.Found.{Found};
ghost use Rattle.worked_systems.specs.Worked.{SmallSystems};
ghost use Rattle.worked_systems.specs.Worked as worked;

use crate::findings::Findings;
use arithmetic::find_arithmetic;
use book::fault::OpenFault;
use no_terms::find_no_terms;
use pair::find_pair;
use scales::{Binary, Disc, Prime};
use single::find_single;
use std::alloc::Global;
use uneven::find_uneven;

mod arithmetic;
mod no_terms;
mod pair;
mod single;
mod uneven;

// What is true of the small systems, and what the library answers for them: nothing but want of memory stops it.
#[tactic(auto, using(crate::proofs::Small::small))]
pub fn run_all(heap: Global) -> Result<Findings, OpenFault>
    ensures systems { SmallSystems }
    ensures found { MatchResult result Found (λ fault. fault ≡ Memory) }
{
    Ok(Findings {
        arithmetic: find_arithmetic(&binary(), &disc()),
        pair: find_pair(heap, binary())?,
        single: find_single(heap, ternary())?,
        uneven: find_uneven(heap, binary())?,
        no_terms: find_no_terms(heap, binary())?,
    })
}

// Counting in base 2 with 3 digits.
fn binary() -> Binary
    ensures { meaning_of_binary result ≡ worked.binary }
{
    Binary::new(3).unwrap()
}

// The same under Gray codes.
fn disc() -> Disc
    ensures { meaning_of_disc result ≡ worked.disc }
{
    Disc::new(3).unwrap()
}

// Counting in base 3 with 2 digits.
fn ternary() -> Prime
    ensures { meaning_of_prime result ≡ worked.ternary }
{
    Prime::new(3, 2).unwrap()
}
