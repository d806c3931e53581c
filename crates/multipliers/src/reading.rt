// What the check reads of a file that is well formed.

ghost use Rattle.std.specs.Prelude.{◌≡◌, ℕ, ◌+◌, ◌<◌, List, MatchResult};
ghost use Rattle.multipliers.specs.Checked.{Stopped, Usable};
ghost use Rattle.multipliers.specs.Totals.{Added, AllCodes};
ghost use Rattle.tie_file.specs.Bodies.{equations, file_shape};
ghost use Rattle.tie_file.specs.Table.{entries};
ghost use Rattle.ties.specs.declared.fault.TieFault.{TieFault as FaultOfTie};
ghost use Rattle.ties.specs.Equations.{nth_equation};
ghost use Rattle.ties.specs.Faults.{Faulty, Sound};
ghost use Rattle.ties.specs.Layouts.{shape};

use crate::fault::CheckFault;
use crate::totals::Totals;
use scale::Scale;
use tie_file::file::TieFile;
use ties::layout::Layout;
use ties::tie::Term;

// The layout of the file, for this scale.
pub fn layout_in<S: Scale>(scale: &S, file: &TieFile) -> Result<Layout, CheckFault>
    ensures { let m = S.Scale.meaning scale.now in let f = file.now in MatchResult result (λ l. Usable m f × (shape l ≡ file_shape f)) (λ g. (ys : List ℕ) → Stopped m f ys g) }
{
    let stated = file.layout();
    let layout = Layout::new(scale, stated.heads, stated.widths)?;
    if stated.mark != scale.mark() {
        return Err(CheckFault::Mark);
    }
    Ok(layout)
}

// Adds tie `i` of the file to the totals, where it is sound.
pub fn add_nth<S: Scale>(
    scale: &S,
    layout: &Layout,
    file: &TieFile,
    i: usize,
    multiplier: u32,
    totals: &mut Totals,
) -> Result<(), CheckFault>
    requires within { i + 1 < entries file.now }
    requires codes { AllCodes (S.Scale.meaning scale.now) totals.old }
    ensures { let m = S.Scale.meaning scale.now in let s = shape layout.now in let e = nth_equation (equations file.now) i in MatchResult result (λ _. Sound m s e × AllCodes m totals.new × Added m s e multiplier totals.old totals.new) (λ g. (t : FaultOfTie) × (g ≡ CheckFault.Tie i t) × Faulty m s e t) }
{
    let mut room = [Term::default(); 32];
    let read = file.read_tie(i, &mut room).unwrap();
    let tie = read.tie(&room).unwrap();
    match tie.check(scale, layout) {
        Ok(tie) => {
            totals.add(&tie, multiplier);
            Ok(())
        }
        Err(fault) => Err(CheckFault::Tie(i, fault)),
    }
}
