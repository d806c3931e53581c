// The matrix of an additive map, by what it does to the units.

ghost use Rattle.std.specs.Prelude.{MatchOption};
ghost use Rattle.endomorphisms.specs.Groups.{numbers};
ghost use Rattle.endomorphisms.specs.Maps.{AllAreMatrices, NoMap, Told};
ghost use Rattle.scales.specs.Counting.{counting};
ghost use Rattle.ties.specs.Layouts.{shape};

use crate::matrix::Matrix;
use scales::{Counting, Digits};
use ties::layout::Layout;

// The matrix of the additive map that takes the unit of each counter to the image in its place, where there is such a map.
pub fn matrix_of_images<D: Digits>(
    scale: &Counting<D>,
    layout: &Layout,
    images: &[[u32; 4]; 4],
) -> Option<Matrix>
    ensures answer { let m = counting (D.counts scale.now.digits) in let s = shape layout.now in MatchOption result (NoMap m s images.now) (λ a. Told m s images.now (numbers a)) }
    ensures every { AllAreMatrices (counting (D.counts scale.now.digits)) (shape layout.now) }
{
    let matrix = Matrix { columns: *images };
    matrix.is_endomorphism(scale, layout).then_some(matrix)
}
