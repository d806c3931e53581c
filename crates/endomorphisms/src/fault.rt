// What can stop the solving of a table.

ghost use Rattle.std.specs.Prelude.{◌≡◌};
ghost use Rattle.book.specs.declared.fault.OpenFault.TheVariants.{Layout as BadLayout};
ghost use Rattle.endomorphisms.specs.declared.fault.SolveFault.TheVariants.{Open as OfOpen, Sheet as OfSheet, Tie as OfTie};
ghost use Rattle.endomorphisms.specs.Faults.{solve_refusal};

use book::fault::{OpenFault, PostFault, SheetFault};
use refusals::Refusal;
use ties::fault::LayoutFault;

// The tie that was refused, by its equation and its counter, from 0, and why.
#[derive(Clone, Copy, Debug)]
pub struct Stop {
    pub equation: usize,
    pub counter: u8,
    pub fault: PostFault,
}

#[derive(Clone, Copy, Debug)]
pub enum SolveFault {
    // the layout is out of bounds, or there is no memory
    Open(OpenFault),
    // a tie of the table was refused
    Tie(Stop),
    // the list for the sheet has too few numbers
    Sheet(SheetFault),
}

impl SolveFault {
    // The refusal, where it is one: want of memory is none.
    pub fn refusal(self) -> Option<Refusal>
        ensures { result ≡ solve_refusal self }
    {
        match self {
            SolveFault::Open(fault) => fault.refusal(),
            SolveFault::Tie(stop) => Some(stop.fault.into()),
            SolveFault::Sheet(fault) => Some(fault.into()),
        }
    }
}

impl From<LayoutFault> for SolveFault {
    ghost from_gives = { λ f r. r ≡ OfOpen (BadLayout f) };

    fn from(fault: LayoutFault) -> SolveFault {
        SolveFault::Open(OpenFault::Layout(fault))
    }
}

impl From<OpenFault> for SolveFault {
    ghost from_gives = { λ f r. r ≡ OfOpen f };

    fn from(fault: OpenFault) -> SolveFault {
        SolveFault::Open(fault)
    }
}

impl From<Stop> for SolveFault {
    ghost from_gives = { λ f r. r ≡ OfTie f };

    fn from(stop: Stop) -> SolveFault {
        SolveFault::Tie(stop)
    }
}

impl From<SheetFault> for SolveFault {
    ghost from_gives = { λ f r. r ≡ OfSheet f };

    fn from(fault: SheetFault) -> SolveFault {
        SolveFault::Sheet(fault)
    }
}
