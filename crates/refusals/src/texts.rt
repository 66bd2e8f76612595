ghost use Rattle.std.specs.Prelude.{Some};
ghost use Rattle.refusals.specs.Numbers.{shown_refusal};

use crate::refusal::Refusal;
use std::fmt;

/// `refused N at P`, as a program prints a refusal.
impl fmt::Display for Refusal {
    ghost output = { λ e. Some (shown_refusal e) };

    fn fmt<W: fmt::Write>(&self, f: &mut fmt::Formatter<W>) -> fmt::Result {
        let number = self.cause.number();
        let place = self.place;
        write!(f, "refused {number} at {place}")
    }
}
