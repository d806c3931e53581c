ghost use Rattle.std.specs.Prelude.{◌≡◌};
ghost use Rattle.worked_systems.specs.Found.{ArithmeticFound};
ghost use Rattle.worked_systems.specs.Worked as worked;

use crate::asking::quotients;
use crate::findings::Arithmetic;
use scale::Scale;

// Quotients of the binary scale, and one call of each function of the disc.
pub fn find_arithmetic<B: Scale, D: Scale>(binary: &B, disc: &D) -> Arithmetic
    requires binary { B.Scale.meaning binary.now ≡ worked.binary }
    requires disc { D.Scale.meaning disc.now ≡ worked.disc }
    ensures { ArithmeticFound result }
{
    Arithmetic {
        four_by_two: quotients(binary, 4, 2),
        answered: binary.quotient(4, 2),
        two_by_four: binary.quotient(2, 4),
        sum: disc.sum(3, 3),
        product: disc.product(3, 2),
        negative: disc.negative(1),
        level: disc.level(2),
    }
}
