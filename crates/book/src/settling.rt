// How many digits of a tie's value are settled.

ghost use Rattle.std.specs.Prelude.{length};
ghost use Rattle.book.specs.Querying.{Least};
ghost use Rattle.book.specs.Rows.{Codes};
ghost use Rattle.ties.specs.Equations.{depth, equation};
ghost use Rattle.ties.specs.Layouts.{shape};

use scale::Scale;
use ties::sound::SoundTie;

// The least level among the totals of the tie's terms at the generators, and the target's width where that is less.
pub fn settled_digits<S: Scale>(tie: &SoundTie<S>, totals: &[u32]) -> u8
    requires { Codes (S.Scale.meaning tie.now.scale.now) totals.now }
    ensures { Least (S.Scale.meaning tie.now.scale.now) (depth (shape tie.now.layout.now) (equation tie.now.tie)) totals.now (length totals.now) result }
{
    let mut settled = tie.layout.width(tie.tie.target);
    for total in totals {
        settled = settled.min(tie.scale.level(*total));
    }
    settled
}
