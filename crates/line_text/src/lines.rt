ghost use Rattle.std.specs.Prelude.{ℕ, List};
ghost use Rattle.line_text.specs.Money.{owner_text, owner_hour_text, load_text};

use crate::listing::TextLine;
use ledger::{HourLine, LoadLine, RollLine};
use std::alloc::AllocError;

/// An owner's figures of the month.
impl TextLine for RollLine {
    ghost line = { owner_text };

    fn push_line(&self, place: usize, text: &mut String) -> Result<(), AllocError> {
        writeln!(
            text,
            "owner {place} credit {} charge {} shortfall charge {} refund {}",
            self.credit.value, self.charge.value, self.short.value, self.refund.value
        )
    }
}

/// An owner's figures of an hour.
impl TextLine for HourLine {
    ghost line = { owner_hour_text };

    fn push_line(&self, place: usize, text: &mut String) -> Result<(), AllocError> {
        writeln!(
            text,
            "owner {place} credit {} charge {} shortfall charge {}",
            self.credit.value, self.charge.value, self.short.value
        )
    }
}

/// What a load was paid.
impl TextLine for LoadLine {
    ghost line = { load_text };

    fn push_line(&self, place: usize, text: &mut String) -> Result<(), AllocError> {
        writeln!(
            text,
            "load {place} mwh {} payment {}",
            self.mwh, self.paid.value
        )
    }
}
