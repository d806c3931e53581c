// The weighed ties added up: a total for each counter, and one for the right sides.

ghost use Rattle.std.specs.Prelude.{◌≡◌, length, Decides};
ghost use Rattle.ties.specs.Equations.{equation};
ghost use Rattle.ties.specs.Layouts.{shape};

use crate::adding::add_terms;
use scale::Scale;
use ties::layout::Layout;
use ties::sound::SoundTie;

#[derive(Clone, Copy)]
pub struct Totals {
    counters: [u32; 32],
    right: u32,
    ghost all: { length counters ≡ 32 },
}

impl Totals {
    ghost use Rattle.multipliers.specs.Totals.{Added, AllCodes, Contradict, nothing};

    // Before any tie is added, each total is 0.
    pub fn new() -> Totals
        ensures { result ≡ nothing }
    {
        Totals {
            counters: [0; 32],
            right: 0,
        }
    }

    // Adds a tie, raised to full length and multiplied.
    pub fn add<S: Scale>(&mut self, tie: &SoundTie<S>, multiplier: u32)
        requires { AllCodes (S.Scale.meaning tie.now.scale.now) self.old }
        ensures codes { AllCodes (S.Scale.meaning tie.now.scale.now) self.new }
        ensures added { let m = S.Scale.meaning tie.now.scale.now in Added m (shape tie.now.layout.now) (equation tie.now.tie) multiplier self.old self.new }
    {
        let by = tie.scale.product(multiplier, tie.raise());
        add_terms(tie, by, &mut self.counters);
        self.right = tie.scale.add_product(self.right, by, tie.tie.right);
    }

    // Whether every counter's total is 0 and that of the right sides is not.
    pub fn contradict(&self, layout: &Layout) -> bool
        ensures { Decides result (Contradict (shape layout.now) self.now) }
    {
        self.counters[..layout.places()]
            .iter()
            .all(|total| *total == 0)
            && self.right != 0
    }
}
