// Matrices of codes, and which of them are endomorphisms.

ghost use Rattle.std.specs.Prelude.{◌≡◌, ◌↔◌, Decides};
ghost use Rattle.ties.specs.Layouts.{Within, shape};
ghost use Rattle.endomorphisms.specs.Groups.{Acts, Coded, Endomorphism, Fine, Fits, numbers};

use scale::{Scale, is_code};
use ties::layout::Layout;

// A number for each pair of counters of one head. Each column is what becomes of the unit of its counter, the element with
// one there and 0 elsewhere. Columns and numbers behind the last counter are not looked at.
#[derive(Clone, Copy, PartialEq, Eq, Debug)]
pub struct Matrix {
    pub columns: [[u32; 4]; 4],
}

impl Matrix {
    // The number by which a counter of the unknown goes into a counter of the result, and 0 where there is no such counter.
    pub fn number(&self, target: u8, source: u8) -> u32
        ensures { result ≡ numbers self.now target source }
    {
        match self.columns.get(usize::from(source)) {
            Some(column) => column.get(usize::from(target)).copied().unwrap_or(0),
            None => 0,
        }
    }

    // Whether the matrix is an endomorphism of the group that the layout makes of a head.
    pub fn is_endomorphism<S: Scale>(&self, scale: &S, layout: &Layout) -> bool
        ensures answer { Decides result (Endomorphism (S.Scale.meaning scale.now) (shape layout.now) (numbers self.now)) }
        ensures rule { let m = S.Scale.meaning scale.now in let s = shape layout.now in let a = numbers self.now in Within m s → Coded m s a → Acts m s a ↔ Fine m s a }
    {
        if Layout::new(scale, layout.heads(), layout.widths()).is_err() {
            return false;
        }
        for target in 0..layout.counters() {
            for source in 0..layout.counters() {
                if !self.fits(scale, layout, target, source) {
                    return false;
                }
            }
        }
        true
    }

    // Whether the number is a code that is fine enough: its level and the width of its source make up the target's width.
    fn fits<S: Scale>(&self, scale: &S, layout: &Layout, target: u8, source: u8) -> bool
        ensures { Decides result (Fits (S.Scale.meaning scale.now) (shape layout.now) (numbers self.now) target source) }
    {
        let number = self.number(target, source);
        let digits = u16::from(scale.level(number)) + u16::from(layout.width(source));
        is_code(scale, number) && u16::from(layout.width(target)) <= digits
    }
}
