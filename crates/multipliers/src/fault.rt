// What can stop the check of multipliers.

ghost use Rattle.std.specs.Prelude.{◌≡◌};
ghost use Rattle.multipliers.specs.declared.fault.CheckFault.TheVariants.{File as OfFile, Layout as OfLayout};
ghost use Rattle.multipliers.specs.Checked.{check_place, check_refusal, check_tie};

use refusals::Refusal;
use tie_file::fault::FileFault;
use ties::fault::{LayoutFault, TieFault};

#[derive(Clone, Copy, Debug)]
pub enum CheckFault {
    File(FileFault),
    Layout(LayoutFault),
    // the file's mark differs from that of the scale in use
    Mark,
    // there are fewer multipliers than ties
    List,
    // the number of the tie, from 0, and its own fault
    Tie(usize, TieFault),
}

impl CheckFault {
    // The number of the tie at fault, where it is a tie's.
    pub fn tie(self) -> Option<usize>
        ensures { result ≡ check_tie self }
    {
        match self {
            CheckFault::Tie(number, _) => Some(number),
            _ => None,
        }
    }

    // The place of the term at fault, where it is a term's.
    pub fn place(self) -> Option<usize>
        ensures { result ≡ check_place self }
    {
        match self {
            CheckFault::Tie(_, fault) => fault.place(),
            _ => None,
        }
    }
}

impl From<CheckFault> for Refusal {
    ghost from_gives = { λ f r. r ≡ check_refusal f };

    fn from(fault: CheckFault) -> Refusal {
        match fault {
            CheckFault::File(fault) => fault.into(),
            CheckFault::Layout(fault) => fault.into(),
            CheckFault::Mark => Refusal::Mark,
            CheckFault::List => Refusal::List,
            CheckFault::Tie(_, fault) => fault.into(),
        }
    }
}

impl From<FileFault> for CheckFault {
    ghost from_gives = { λ f r. r ≡ OfFile f };

    fn from(fault: FileFault) -> CheckFault {
        CheckFault::File(fault)
    }
}

impl From<LayoutFault> for CheckFault {
    ghost from_gives = { λ f r. r ≡ OfLayout f };

    fn from(fault: LayoutFault) -> CheckFault {
        CheckFault::Layout(fault)
    }
}
