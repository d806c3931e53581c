ghost use Rattle.std.specs.Prelude.{◌≡◌};
ghost use Rattle.scales.specs.Kinds.{Decodes, number};

use crate::fault::ScaleFault;

// The kinds of this crate's scales, with the numbers that marks have for them.
#[derive(Clone, Copy, PartialEq, Eq, Debug)]
pub enum Kind {
    Binary = 1,
    Prime = 2,
    Disc = 3,
}

impl From<Kind> for u8 {
    ghost from_gives = { λ kind n. n ≡ number kind };

    fn from(kind: Kind) -> u8 {
        kind as u8
    }
}

impl TryFrom<u8> for Kind {
    type Error = ScaleFault;

    ghost try_from_gives = { Decodes };

    fn try_from(number: u8) -> Result<Kind, ScaleFault> {
        match number {
            1 => Ok(Kind::Binary),
            2 => Ok(Kind::Prime),
            3 => Ok(Kind::Disc),
            _ => Err(ScaleFault::Numbers),
        }
    }
}
