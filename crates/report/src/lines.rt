// The lines that the program prints.

ghost use Rattle.std.specs.Prelude.{◌≡◌, ◌*◌, Some};
ghost use Rattle.report.specs.Printed.{counter_lines, front_lines, lines_of, printed};
ghost use Rattle.std.specs.Fmt.{WritesOnOk};

use crate::answer::Report;
use crate::fault::ReportFault;
use refusals::Refusal;
use std::fmt;

#[derive(Drop)]
pub struct Lines(pub Result<Report, Refusal>);

impl Lines {
    // The lines for what a report answered: there are none for want of memory.
    pub fn new(answer: Result<Report, ReportFault>) -> Option<Lines>
        ensures { result ≡ lines_of answer }
    {
        match answer {
            Ok(report) => Some(Lines(Ok(report))),
            Err(fault) => Some(Lines(Err(fault.refusal()?))),
        }
    }
}

impl fmt::Display for Lines {
    ghost output = { λ l. Some (printed l.0) };

    fn fmt<W: fmt::Write>(&self, f: &mut fmt::Formatter<W>) -> fmt::Result {
        let report = match self.0 {
            Ok(report) => report,
            Err(refusal) => {
                let number = u8::from(refusal);
                return write!(f, "refused {number}");
            }
        };
        write_front(&report, f)?;
        write_counters(&report, f)
    }
}

// Writes how many ties stand, how many digits are free, and the line on the tie that was refused.
fn write_front<W: fmt::Write>(report: &Report, f: &mut fmt::Formatter<W>) -> fmt::Result
    ensures { WritesOnOk W.Write.write_str_gives f.old result (front_lines report.now) f.new }
{
    let standing = report.standing;
    let free = report.free;
    match report.stopped {
        None => write!(f, "standing {standing} free {free}"),
        Some(stop) => {
            let tie = stop.tie;
            let number = u8::from(Refusal::from(stop.fault));
            write!(f, "standing {standing} free {free}\nstopped {tie} {number}")
        }
    }
}

// Writes a line on each counter, behind the end of the line before it.
fn write_counters<W: fmt::Write>(report: &Report, f: &mut fmt::Formatter<W>) -> fmt::Result
    ensures { let t = report.now in WritesOnOk W.Write.write_str_gives f.old result (counter_lines t (t.heads * t.counters)) f.new }
{
    let counters = usize::from(report.counters);
    for i in 0..usize::from(report.heads) * counters {
        let head = i / counters;
        let counter = i % counters;
        let digits = report.settled_at(i);
        write!(f, "\n{head} {counter} {digits}")?;
    }
    Ok(())
}
