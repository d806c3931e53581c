ghost use Rattle.std.specs.Prelude.{◌≡◌};
ghost use Rattle.scales.specs.Faults.{refused};

use refusals::Refusal;

// Why a scale was not made.
#[derive(Clone, Copy, PartialEq, Eq, Debug)]
pub enum ScaleFault {
    // the numbers are not those of its kind
    Numbers,
}

impl From<ScaleFault> for Refusal {
    ghost from_gives = { λ fault refusal. refusal ≡ refused fault };

    fn from(fault: ScaleFault) -> Refusal {
        match fault {
            ScaleFault::Numbers => Refusal::Numbers,
        }
    }
}
