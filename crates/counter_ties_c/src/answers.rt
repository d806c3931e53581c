// The answers that go out in structs, laid out as in C.

ghost use Rattle.std.specs.Prelude.{◌≡◌, None, Some};
ghost use Rattle.counter_ties_c.specs.Crossing.{spot_after, summary_of};

use refusals::Refusal;
use report::answer::Report;

// A tie of the file, and a term of that tie, both from 0.
#[repr(C)]
#[derive(Clone, Copy, Debug)]
pub struct Spot {
    pub tie: usize,
    pub place: usize,
}

impl Spot {
    // Takes the tie and the term that a fault names; what it does not name is kept.
    pub fn tell(&mut self, tie: Option<usize>, place: Option<usize>)
        ensures { self.new ≡ spot_after self.old tie place }
    {
        self.tie = tie.unwrap_or(self.tie);
        self.place = place.unwrap_or(self.place);
    }
}

// A report.
#[repr(C)]
#[derive(Clone, Copy, Debug)]
pub struct Summary {
    pub standing: usize,
    // the tie at which posting stopped and the term at fault, or 0
    pub stopped_at: Spot,
    pub free: u16,
    // the number of the refusal that stopped posting, or 0
    pub stopped: u8,
    pub heads: u8,
    pub counters: u8,
    pub settled: [u8; 32],
}

impl From<Report> for Summary {
    ghost from_gives = { λ r s. s ≡ summary_of r };

    fn from(report: Report) -> Summary {
        let mut stopped_at = Spot { tie: 0, place: 0 };
        let mut stopped = 0;
        if let Some(stop) = report.stopped {
            stopped_at.tell(Some(stop.tie), stop.fault.place());
            stopped = Refusal::from(stop.fault).into();
        }
        let settled = report.settled;
        Summary {
            standing: report.standing,
            stopped_at,
            free: report.free,
            stopped,
            heads: report.heads,
            counters: report.counters,
            settled,
        }
    }
}
