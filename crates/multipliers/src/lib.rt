// The check of multipliers, which needs no solver.

#![tactic(auto)]

ghost use Rattle.std.specs.Prelude.{◌≡◌, ◌<◌, ◌≤◌, true, length, IfOk, Decides, MatchResult};
ghost use Rattle.multipliers.specs.Checked.{Checkable, Stopped};
ghost use Rattle.multipliers.specs.Refuting.{Refutes};
ghost use Rattle.tie_file.specs.Bodies.{equations, file_shape};
ghost use Rattle.ties.specs.Equations.{Contradictory};

use crate::fault::CheckFault;
use crate::reading::{add_nth, layout_in};
use crate::totals::Totals;
use scale::Scale;
use tie_file::verify;

pub mod adding;
pub mod fault;
mod reading;
mod totals;

// Whether the multipliers, one for each tie of the file in order, show that its ties contradict each other.
pub fn check<S: Scale>(scale: &S, file: &[u8], multipliers: &[u32]) -> Result<bool, CheckFault>
    ensures answer { let m = S.Scale.meaning scale.now in let f = file.now in let ys = multipliers.now in MatchResult result (λ yes. Checkable m f ys × Decides yes (Refutes m (file_shape f) (equations f) ys)) (Stopped m f ys) }
    ensures trusted { let m = S.Scale.meaning scale.now in let f = file.now in IfOk result (λ yes. yes ≡ true → Contradictory m (file_shape f) (equations f)) }
{
    let whole = verify(file)?;
    let layout = layout_in(scale, &whole)?;
    let ties = whole.ties();
    if multipliers.len() < ties {
        return Err(CheckFault::List);
    }
    let mut totals = Totals::new();
    for (i, multiplier) in multipliers[..ties].iter().enumerate() {
        add_nth(scale, &layout, &whole, i, *multiplier, &mut totals)?;
    }
    Ok(totals.contradict(&layout))
}
