// What can stop the check by a file's own mark.

ghost use Rattle.std.specs.Prelude.{◌≡◌};
ghost use Rattle.marked_check.specs.declared.fault.MarkedFault.TheVariants.{Check as OfCheck, Scale as OfScale};
ghost use Rattle.marked_check.specs.Marked.{marked_place, marked_refusal, marked_tie};
ghost use Rattle.multipliers.specs.declared.fault.CheckFault.TheVariants.{File as OfFile};

use multipliers::fault::CheckFault;
use refusals::Refusal;
use scales::ScaleFault;
use tie_file::fault::FileFault;

#[derive(Clone, Copy, Debug)]
pub enum MarkedFault {
    // the mark makes no scale
    Scale(ScaleFault),
    Check(CheckFault),
}

impl MarkedFault {
    // The number of the tie at fault, where it is a tie's.
    pub fn tie(self) -> Option<usize>
        ensures { result ≡ marked_tie self }
    {
        match self {
            MarkedFault::Scale(_) => None,
            MarkedFault::Check(fault) => fault.tie(),
        }
    }

    // The place of the term at fault, where it is a term's.
    pub fn place(self) -> Option<usize>
        ensures { result ≡ marked_place self }
    {
        match self {
            MarkedFault::Scale(_) => None,
            MarkedFault::Check(fault) => fault.place(),
        }
    }
}

impl From<MarkedFault> for Refusal {
    ghost from_gives = { λ f r. r ≡ marked_refusal f };

    fn from(fault: MarkedFault) -> Refusal {
        match fault {
            MarkedFault::Scale(fault) => fault.into(),
            MarkedFault::Check(fault) => fault.into(),
        }
    }
}

impl From<FileFault> for MarkedFault {
    ghost from_gives = { λ f r. r ≡ OfCheck (OfFile f) };

    fn from(fault: FileFault) -> MarkedFault {
        MarkedFault::Check(CheckFault::File(fault))
    }
}

impl From<ScaleFault> for MarkedFault {
    ghost from_gives = { λ f r. r ≡ OfScale f };

    fn from(fault: ScaleFault) -> MarkedFault {
        MarkedFault::Scale(fault)
    }
}

impl From<CheckFault> for MarkedFault {
    ghost from_gives = { λ f r. r ≡ OfCheck f };

    fn from(fault: CheckFault) -> MarkedFault {
        MarkedFault::Check(fault)
    }
}
