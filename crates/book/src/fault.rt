// What can stop the calls of a book.

ghost use Rattle.std.specs.Prelude.{◌≡◌};
ghost use Rattle.book.specs.declared.fault.OpenFault.TheVariants.{Layout as OfLayout, Memory as NoMemory};
ghost use Rattle.book.specs.declared.fault.LoadFault.TheVariants.{File as OfFile, Tie as OfRefused};
ghost use Rattle.book.specs.declared.fault.PostFault.TheVariants.{Tie as OfTie};
ghost use Rattle.book.specs.Faults.{load_place, load_refusal, load_tie, open_refusal, post_place, post_refusal, sheet_refusal, withdraw_refusal, write_refusal};

use refusals::Refusal;
use std::alloc::AllocError;
use tie_file::fault::FileFault;
use ties::fault::{LayoutFault, TieFault};

#[derive(Clone, Copy, Debug)]
pub enum OpenFault {
    Layout(LayoutFault),
    // there is no memory for the book
    Memory,
}

impl OpenFault {
    // The refusal, where it is one: want of memory is none.
    pub fn refusal(self) -> Option<Refusal>
        ensures { result ≡ open_refusal self }
    {
        match self {
            OpenFault::Layout(fault) => Some(fault.into()),
            OpenFault::Memory => None,
        }
    }
}

impl From<LayoutFault> for OpenFault {
    ghost from_gives = { λ f r. r ≡ OfLayout f };

    fn from(fault: LayoutFault) -> OpenFault {
        OpenFault::Layout(fault)
    }
}

impl From<AllocError> for OpenFault {
    ghost from_gives = { λ f r. r ≡ NoMemory };

    fn from(_fault: AllocError) -> OpenFault {
        OpenFault::Memory
    }
}

#[derive(Clone, Copy, Debug)]
pub enum PostFault {
    // the list of multipliers has fewer than 64 numbers
    List,
    Tie(TieFault),
    // there stand 64 ties already
    Full,
    // no assignment meets the tie and all standing ties
    Contradiction,
}

impl From<PostFault> for Refusal {
    ghost from_gives = { λ f r. r ≡ post_refusal f };

    fn from(fault: PostFault) -> Refusal {
        match fault {
            PostFault::List => Refusal::List,
            PostFault::Tie(fault) => fault.into(),
            PostFault::Full => Refusal::Full,
            PostFault::Contradiction => Refusal::Contradiction,
        }
    }
}

impl PostFault {
    // The place of the term at fault, where it is a term's.
    pub fn place(self) -> Option<usize>
        ensures { result ≡ post_place self }
    {
        match self {
            PostFault::Tie(fault) => fault.place(),
            _ => None,
        }
    }
}

impl From<TieFault> for PostFault {
    ghost from_gives = { λ f r. r ≡ OfTie f };

    fn from(fault: TieFault) -> PostFault {
        PostFault::Tie(fault)
    }
}

// The number of the tie of a file that was refused, from 0, and why.
#[derive(Clone, Copy, Debug)]
pub struct Stop {
    pub tie: usize,
    pub fault: PostFault,
}

#[derive(Clone, Copy, Debug)]
pub enum LoadFault {
    File(FileFault),
    // the file's mark or layout is not the book's
    Mark,
    // the list of multipliers has fewer than 64 numbers
    List,
    // the number of the tie that was refused, from 0, and its own fault
    Tie(usize, PostFault),
}

impl LoadFault {
    // The number of the tie that was refused, where it is a tie's.
    pub fn tie(self) -> Option<usize>
        ensures { result ≡ load_tie self }
    {
        match self {
            LoadFault::File(_) | LoadFault::Mark | LoadFault::List => None,
            LoadFault::Tie(number, _) => Some(number),
        }
    }

    // The place of the term at fault, where it is a term's.
    pub fn place(self) -> Option<usize>
        ensures { result ≡ load_place self }
    {
        match self {
            LoadFault::File(_) | LoadFault::Mark | LoadFault::List => None,
            LoadFault::Tie(_, fault) => fault.place(),
        }
    }
}

impl From<LoadFault> for Refusal {
    ghost from_gives = { λ f r. r ≡ load_refusal f };

    fn from(fault: LoadFault) -> Refusal {
        match fault {
            LoadFault::File(fault) => fault.into(),
            LoadFault::Mark => Refusal::Mark,
            LoadFault::List => Refusal::List,
            LoadFault::Tie(_, fault) => fault.into(),
        }
    }
}

impl From<FileFault> for LoadFault {
    ghost from_gives = { λ f r. r ≡ OfFile f };

    fn from(fault: FileFault) -> LoadFault {
        LoadFault::File(fault)
    }
}

impl From<Stop> for LoadFault {
    ghost from_gives = { λ stop r. r ≡ OfRefused stop.tie stop.fault };

    fn from(stop: Stop) -> LoadFault {
        LoadFault::Tie(stop.tie, stop.fault)
    }
}

#[derive(Clone, Copy, PartialEq, Eq, Debug)]
pub enum SheetFault {
    // the list has too few numbers for the sheet
    List,
}

impl From<SheetFault> for Refusal {
    ghost from_gives = { λ f r. r ≡ sheet_refusal f };

    fn from(fault: SheetFault) -> Refusal {
        match fault {
            SheetFault::List => Refusal::List,
        }
    }
}

#[derive(Clone, Copy, PartialEq, Eq, Debug)]
pub enum WriteFault {
    // the list has too few bytes for the file
    List,
}

impl From<WriteFault> for Refusal {
    ghost from_gives = { λ f r. r ≡ write_refusal f };

    fn from(fault: WriteFault) -> Refusal {
        match fault {
            WriteFault::List => Refusal::List,
        }
    }
}

#[derive(Clone, Copy, PartialEq, Eq, Debug)]
pub enum WithdrawFault {
    // there is no tie to withdraw
    Nothing,
}

impl From<WithdrawFault> for Refusal {
    ghost from_gives = { λ f r. r ≡ withdraw_refusal f };

    fn from(fault: WithdrawFault) -> Refusal {
        match fault {
            WithdrawFault::Nothing => Refusal::Nothing,
        }
    }
}
