ghost use Rattle.std.specs.Prelude.{◌≡◌, Option as Maybe};
ghost use Rattle.std.specs.Option.{option_map};
ghost use Rattle.rows.specs.declared.plain.HoldingRow.{HoldingRow as Held};
ghost use Rattle.rows.specs.Plain.{plain_holding};
ghost use Rattle.payoff.specs.Tables.{Tables};
ghost use Rattle.payoff.specs.Rules.{Payoff, Lawful};
ghost use Rattle.payoff.specs.Payments.{rate_of};
ghost use Rattle.payoff.specs.View.{tables_of, payoff_of, plain_payment};

use crate::figures::Figures;
use crate::payment::Payment;
use crate::tested::TestedTables;
use rows::Holding;

/// What a congestion right pays by.
pub trait Instrument {
    /// Nothing for a holding that is not served, else its four figures: the same for the same tables and holding.
    ghost means: { Self → Tables → Held → Maybe Payoff };

    fn figures(&self, hour: &TestedTables, holding: &Holding) -> Option<Figures>
        ensures { option_map payoff_of result ≡ means self.now (tables_of hour.now) (plain_holding holding.now) };

    /// What the holding is paid by: what its four figures give. An instrument that knows the price that is paid without
    /// all four writes its own.
    fn payment(&self, hour: &TestedTables, holding: &Holding) -> Option<Payment>
        ensures { option_map plain_payment result ≡ option_map rate_of (means self.now (tables_of hour.now) (plain_holding holding.now)) }
    {
        let figures = self.figures(hour, holding)?;
        Some(figures.payment())
    }

    /// The payoff rules, which every instrument keeps.
    ghost rules: { (i : Self) (t : Tables) (h : Held) → Lawful t h (means i t h) };
}
