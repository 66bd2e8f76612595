ghost use Rattle.std.specs.Prelude.{◌≡◌, ℕ};
ghost use Rattle.units.specs.Parts.{positive};
ghost use Rattle.ledger.specs.Lines.{charged, refunded, paid_out};
ghost use Rattle.std.proofs.Common.{rules};

use crate::lines::{HourLine, LoadLine, RollLine};
use crate::tests::positive_cents;
use sharing::Line;

// each kind of line says which of its figures weighs and which takes the share, and no more than that
/// An hour's shortfall is shared by credit.
impl Line for HourLine {
    ghost weight = { λ x. positive x.credit.value };

    ghost had = { λ x. x.short.value };

    ghost given = { charged };

    ghost adds = { Prim.search rules };

    ghost keeps = { Prim.search rules };

    fn weighs(&self) -> u64 {
        positive_cents(&self.credit)
    }

    fn add(&mut self, share: u64) {
        self.short.value += share as i64;
    }
}

/// Refunds are shared by shortfall charge.
impl Line for RollLine {
    ghost weight = { λ x. positive x.short.value };

    ghost had = { λ x. x.refund.value };

    ghost given = { refunded };

    ghost adds = { Prim.search rules };

    ghost keeps = { Prim.search rules };

    fn weighs(&self) -> u64 {
        positive_cents(&self.short)
    }

    fn add(&mut self, share: u64) {
        self.refund.value += share as i64;
    }
}

/// What is left of the month is shared by MWh.
impl Line for LoadLine {
    ghost weight = { λ x. x.mwh };

    ghost had = { λ x. x.paid.value };

    ghost given = { paid_out };

    ghost adds = { Prim.search rules };

    ghost keeps = { Prim.search rules };

    fn weighs(&self) -> u64 {
        u64::from(self.mwh)
    }

    fn add(&mut self, share: u64) {
        self.paid.value += share as i64;
    }
}
