// What can be wrong with a layout, a term or a tie.

ghost use Rattle.std.specs.Prelude.{◌≡◌};
ghost use Rattle.ties.specs.declared.fault.TieFault.TheVariants.{Term as OfTerm};
ghost use Rattle.ties.specs.Faults.{layout_refusal, term_place, term_refusal, tie_place, tie_refusal};

use refusals::Refusal;

#[derive(Clone, Copy, PartialEq, Eq, Debug)]
pub enum LayoutFault {
    // no head, more than 8 heads, no counter or more than 4
    Shape,
    // a width is 0 or greater than the scale's length
    Width,
}

impl From<LayoutFault> for Refusal {
    ghost from_gives = { λ f r. r ≡ layout_refusal f };

    fn from(fault: LayoutFault) -> Refusal {
        match fault {
            LayoutFault::Shape => Refusal::Shape,
            LayoutFault::Width => Refusal::Width,
        }
    }
}

// The first place at which a check over all terms fails.
#[derive(Clone, Copy, PartialEq, Eq, Debug)]
pub enum TermFault {
    // the head or the counter does not exist
    Absent(usize),
    // the term does not rise above the one before it
    Order(usize),
    // the factor is no code, or the right side, whose place is the number of terms
    NoCode(usize),
    // the factor's level plus its counter's width is less than the target's width
    Coarse(usize),
}

impl TermFault {
    pub fn place(self) -> usize
        ensures { result ≡ term_place self }
    {
        match self {
            TermFault::Absent(place)
            | TermFault::Order(place)
            | TermFault::NoCode(place)
            | TermFault::Coarse(place) => place,
        }
    }
}

impl From<TermFault> for Refusal {
    ghost from_gives = { λ f r. r ≡ term_refusal f };

    fn from(fault: TermFault) -> Refusal {
        match fault {
            TermFault::Absent(_) => Refusal::Absent,
            TermFault::Order(_) => Refusal::Order,
            TermFault::NoCode(_) => Refusal::NoCode,
            TermFault::Coarse(_) => Refusal::Coarse,
        }
    }
}

#[derive(Clone, Copy, PartialEq, Eq, Debug)]
pub enum TieFault {
    // the target is no counter of a head
    Target,
    Term(TermFault),
}

impl TieFault {
    // The place of the term at fault, where it is a term's.
    pub fn place(self) -> Option<usize>
        ensures { result ≡ tie_place self }
    {
        match self {
            TieFault::Target => None,
            TieFault::Term(fault) => Some(fault.place()),
        }
    }
}

impl From<TieFault> for Refusal {
    ghost from_gives = { λ f r. r ≡ tie_refusal f };

    fn from(fault: TieFault) -> Refusal {
        match fault {
            TieFault::Target => Refusal::Target,
            TieFault::Term(fault) => fault.into(),
        }
    }
}

impl From<TermFault> for TieFault {
    ghost from_gives = { λ f r. r ≡ OfTerm f };

    fn from(fault: TermFault) -> TieFault {
        TieFault::Term(fault)
    }
}
