//! A fault in words.
ghost use Rattle.std.specs.Prelude.{Some};
ghost use Rattle.translation.specs.Fault.{fault_text};

use crate::fault::Fault;
use std::error::Error;
use std::fmt;

impl fmt::Display for Fault {
    ghost output = { λ f. Some (fault_text f) };

    fn fmt<W: fmt::Write>(&self, f: &mut fmt::Formatter<W>) -> fmt::Result {
        write!(
            f,
            "{}, {}, on the way to {}",
            self.cause, self.layer, self.purpose
        )
    }
}

impl Error for Fault {}
