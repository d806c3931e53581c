// The calls for other languages: each is a call of the library on a whole file, and moves its answer out.

#![tactic(auto)]

ghost use Rattle.std.specs.Prelude.{◌≡◌};
ghost use Rattle.counter_ties_c.specs.Crossing.{status_of};
ghost use Rattle.counter_ties_c.specs.Calls.{CheckOut, MultipliersOut, ReportOut, SheetOut, StopTold};
ghost use Rattle.marked_check.specs.Marked.{scale_of};
ghost use Rattle.tie_file.specs.Bodies.{equations, file_shape};
ghost use Rattle.ties.specs.Equations.{Contradictory};

use crate::answers::{Spot, Summary};
use crate::filling::fill;
use book::fault::Stop;
use marked_check::check_marked;
use refusals::Refusal;
use report::report;
use std::alloc::Global;

pub mod answers;
mod filling;

// What a call returns where it was done, and where there was no memory for it.
const DONE: u8 = 0;

const NO_MEMORY: u8 = 255;

// The report on a file.
#[unsafe(no_mangle)]
pub extern "C" fn counter_ties_report(heap: Global, file: &[u8], summary: &mut Summary) -> u8
    ensures { ReportOut file.now summary.old summary.new result }
{
    match report(heap, file) {
        Ok(told) => {
            *summary = told.into();
            DONE
        }
        Err(fault) => status(fault.refusal()),
    }
}

// The sheet of the ties of a file that stand, at the front of the list, and how many digits they leave free.
#[unsafe(no_mangle)]
pub extern "C" fn counter_ties_sheet(
    heap: Global,
    file: &[u8],
    list: &mut [u32],
    free: &mut u16,
) -> u8
    ensures { SheetOut file.now list.old list.new free.old free.new result }
{
    let filled = match fill(heap, file, &mut [0; 64]) {
        Ok(filled) => filled,
        Err(fault) => return status(fault.refusal()),
    };
    match filled.book.sheet(list) {
        Ok(digits) => {
            *free = digits;
            DONE
        }
        Err(fault) => Refusal::from(fault).into(),
    }
}

// Posts the ties of a file until one is refused: the list as posting leaves it, and where that was.
#[unsafe(no_mangle)]
pub extern "C" fn counter_ties_multipliers(
    heap: Global,
    file: &[u8],
    list: &mut [u32],
    spot: &mut Spot,
) -> u8
    ensures { MultipliersOut file.now list.old list.new spot.old spot.new result }
{
    match fill(heap, file, list) {
        Ok(filled) => stopped(filled.posted, spot),
        Err(fault) => status(fault.refusal()),
    }
}

// The check of multipliers by the scale of the file's mark: `yes` becomes 1 or 0.
#[unsafe(no_mangle)]
pub extern "C" fn counter_ties_check(
    file: &[u8],
    multipliers: &[u32],
    yes: &mut u8,
    spot: &mut Spot,
) -> u8
    ensures answer { CheckOut file.now multipliers.now yes.old yes.new spot.old spot.new result }
    ensures trusted { let f = file.now in result ≡ 0 → yes.new ≡ 1 → Contradictory (scale_of f) (file_shape f) (equations f) }
{
    match check_marked(file, multipliers) {
        Ok(answer) => {
            *yes = u8::from(answer);
            DONE
        }
        Err(fault) => {
            spot.tell(fault.tie(), fault.place());
            Refusal::from(fault).into()
        }
    }
}

// How posting ended: the number of the refusal, where a tie was refused.
fn stopped(posted: Result<usize, Stop>, spot: &mut Spot) -> u8
    ensures { StopTold posted result spot.old spot.new }
{
    match posted {
        Ok(_) => DONE,
        Err(stop) => {
            spot.tell(Some(stop.tie), stop.fault.place());
            Refusal::from(stop.fault).into()
        }
    }
}

// The number of a refusal; where there is none memory was wanting.
fn status(refusal: Option<Refusal>) -> u8
    ensures { result ≡ status_of refusal }
{
    match refusal {
        Some(refusal) => refusal.into(),
        None => NO_MEMORY,
    }
}
