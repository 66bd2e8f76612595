ghost use Rattle.std.specs.Prelude.{◌≡◌, ◌^◌, ◌<◌};
ghost use Rattle.units.specs.Parts.{positive};
ghost use Rattle.ledger.specs.Figures.{within};
ghost use Rattle.ledger.specs.Calls.{load_ok};

use crate::lines::LoadLine;
use rows::Sound;
use units::Cents;

/// The larger of 0 and a sum of money.
pub fn positive_cents(cents: &Cents) -> u64
    ensures value { result ≡ positive cents.now.value }
    ensures bound { result < 2 ^ 63 }
{
    cents.value.max(0) as u64
}

/// Whether a figure is not negative and not above a total.
pub fn is_within(cents: &Cents, total: u64) -> bool
    ensures { result ≡ within total cents.now }
{
    !cents.value.is_negative() && cents.value.unsigned_abs() <= total
}

impl Sound for LoadLine {
    ghost ok = { load_ok };

    fn sound(&self) -> bool {
        self.mwh <= 40_000_000 && is_within(&self.paid, 0)
    }
}
