// The report on a tie file: its ties are posted in order to an empty book until one is refused.

#![tactic(auto)]

ghost use Rattle.std.specs.Prelude.{◌≡◌, MatchResult};
ghost use Rattle.report.specs.Reported.{NamedBy, Openable, ReportStopped, Reported};
ghost use Rattle.scales.specs.Kinds.{named};
ghost use Rattle.tie_file.specs.Bodies.{equations, file_mark, file_shape};

use crate::answer::Report;
use crate::fault::ReportFault;
use crate::opening::open_over;
use crate::summing::report_on;
use scale::Scale;
use scales::AnyScale;
use std::alloc::Global;
use tie_file::file::TieFile;
use tie_file::verify;

pub mod answer;
pub mod fault;
pub mod lines;
pub mod opening;
mod settling;
mod summing;

// How many ties of the file stand, by the scale of the file's mark, how many digits they leave free, where and why
// posting stopped, and how many digits of each counter's code are settled. The kind of the scale is asked once, here.
pub fn report(heap: Global, file: &[u8]) -> Result<Report, ReportFault>
    ensures { let f = file.now in MatchResult result (λ t. Openable f × Reported (named (file_mark f)) (file_shape f) (equations f) t) (ReportStopped f) }
{
    let whole = verify(file)?;
    match AnyScale::from_mark(whole.layout().mark)? {
        AnyScale::Binary(scale) => report_over(heap, scale, &whole),
        AnyScale::Prime(scale) => report_over(heap, scale, &whole),
        AnyScale::Disc(scale) => report_over(heap, scale, &whole),
    }
}

// The same over the scale that the file's mark names.
fn report_over<S: Scale + Drop>(
    heap: Global,
    scale: S,
    file: &TieFile,
) -> Result<Report, ReportFault>
    requires { NamedBy file.now (S.Scale.meaning scale) }
    ensures { let f = file.now in MatchResult result (λ t. Openable f × Reported (named (file_mark f)) (file_shape f) (equations f) t) (ReportStopped f) }
{
    let mut book = open_over(heap, scale, file)?;
    Ok(report_on(&mut book, file))
}
