// The check of multipliers over the scale that a file's own mark names.

#![tactic(auto)]

ghost use Rattle.std.specs.Prelude.{◌≡◌, true, IfOk, Decides, MatchResult};
ghost use Rattle.marked_check.specs.Marked.{MarkedStopped, scale_of};
ghost use Rattle.multipliers.specs.Checked.{Checkable};
ghost use Rattle.multipliers.specs.Refuting.{Refutes};
ghost use Rattle.scales.specs.Kinds.{Numbers};
ghost use Rattle.tie_file.specs.Bodies.{equations, file_mark, file_shape};
ghost use Rattle.ties.specs.Equations.{Contradictory};

use crate::fault::MarkedFault;
use multipliers::check;
use scales::AnyScale;
use tie_file::verify;

pub mod fault;
pub mod line;

// Whether the multipliers show that the ties of the file contradict each other, by the scale of the file's mark.
pub fn check_marked(file: &[u8], multipliers: &[u32]) -> Result<bool, MarkedFault>
    ensures answer { let f = file.now in let ys = multipliers.now in MatchResult result (λ yes. Numbers (file_mark f) × Checkable (scale_of f) f ys × Decides yes (Refutes (scale_of f) (file_shape f) (equations f) ys)) (MarkedStopped f ys) }
    ensures trusted { let f = file.now in IfOk result (λ yes. yes ≡ true → Contradictory (scale_of f) (file_shape f) (equations f)) }
{
    let mark = verify(file)?.layout().mark;
    let scale = AnyScale::from_mark(mark)?;
    Ok(check(&scale, file, multipliers)?)
}
