// What can stop a report before the first tie.

ghost use Rattle.std.specs.Prelude.{◌≡◌};
ghost use Rattle.report.specs.declared.fault.ReportFault.TheVariants.{File as OfFile, Scale as OfScale};
ghost use Rattle.report.specs.Faults.{from_open, report_refusal};

use book::fault::OpenFault;
use refusals::Refusal;
use scales::ScaleFault;
use tie_file::fault::FileFault;
use ties::fault::LayoutFault;

#[derive(Clone, Copy, Debug)]
pub enum ReportFault {
    File(FileFault),
    // the mark makes no scale
    Scale(ScaleFault),
    Layout(LayoutFault),
    // there is no memory for the book
    Memory,
}

impl ReportFault {
    // The refusal, where it is one: want of memory is none.
    pub fn refusal(self) -> Option<Refusal>
        ensures { result ≡ report_refusal self }
    {
        match self {
            ReportFault::File(fault) => Some(fault.into()),
            ReportFault::Scale(fault) => Some(fault.into()),
            ReportFault::Layout(fault) => Some(fault.into()),
            ReportFault::Memory => None,
        }
    }
}

impl From<FileFault> for ReportFault {
    ghost from_gives = { λ f r. r ≡ OfFile f };

    fn from(fault: FileFault) -> ReportFault {
        ReportFault::File(fault)
    }
}

impl From<ScaleFault> for ReportFault {
    ghost from_gives = { λ f r. r ≡ OfScale f };

    fn from(fault: ScaleFault) -> ReportFault {
        ReportFault::Scale(fault)
    }
}

impl From<OpenFault> for ReportFault {
    ghost from_gives = { λ f r. r ≡ from_open f };

    fn from(fault: OpenFault) -> ReportFault {
        match fault {
            OpenFault::Layout(fault) => ReportFault::Layout(fault),
            OpenFault::Memory => ReportFault::Memory,
        }
    }
}
