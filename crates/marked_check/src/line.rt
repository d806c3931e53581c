// The line that the program prints.

ghost use Rattle.std.specs.Prelude.{Some};
ghost use Rattle.marked_check.specs.Printed.{printed};

use crate::fault::MarkedFault;
use refusals::Refusal;
use std::fmt;

#[derive(Drop)]
pub struct Line(pub Result<bool, MarkedFault>);

impl fmt::Display for Line {
    ghost output = { λ l. Some (printed l.0) };

    fn fmt<W: fmt::Write>(&self, f: &mut fmt::Formatter<W>) -> fmt::Result {
        let fault = match self.0 {
            Ok(true) => return write!(f, "yes"),
            Ok(false) => return write!(f, "no"),
            Err(fault) => fault,
        };
        let number = u8::from(Refusal::from(fault));
        match (fault.tie(), fault.place()) {
            (Some(tie), Some(place)) => write!(f, "refused {number} {tie} {place}"),
            (Some(tie), None) => write!(f, "refused {number} {tie}"),
            (None, Some(place)) => write!(f, "refused {number} {place}"),
            (None, None) => write!(f, "refused {number}"),
        }
    }
}
