ghost use Rattle.std.specs.Prelude.{◌≡◌, Some};
ghost use Rattle.std.specs.Option.{option_map};
ghost use Rattle.rows.specs.Plain.{plain_holding};
ghost use Rattle.payoff.specs.Instruments.{figures_at, plainly, obligation, ptp_option};
ghost use Rattle.payoff.specs.Targets.{target_by};
ghost use Rattle.payoff.specs.Payments.{payment_price, rate_of};
ghost use Rattle.payoff.specs.View.{tables_of, plain_pair, pair_of, payoff_of, plain_payment};
ghost use Rattle.payoff.specs.declared.target.TargetRule.TheVariants.{Spread, PositiveSpread};
ghost use Rattle.payoff.specs.Laws.{plainly_lawful};

use crate::deration::deration_price;
use crate::figures::Figures;
use crate::instrument::Instrument;
use crate::pair::Pair;
use crate::paying::payment_price;
use crate::payment::Payment;
use crate::target::TargetRule;
use crate::tested::TestedTables;
use rows::Holding;
use units::Price;

/// The target price of a spread.
fn target_price(rule: TargetRule, spread: Price) -> Price
    ensures { result.value ≡ target_by rule spread.value }
{
    match rule {
        TargetRule::Spread => spread,
        TargetRule::PositiveSpread => spread.max(Price { value: 0 }),
    }
}

/// The figures of a plain instrument at its target price.
// hour, holding and pair come each from its own caller, and go together in these two functions alone
fn figures_at(hour: &TestedTables, holding: &Holding, pair: &Pair, target: Price) -> Figures
    requires { Some (plain_pair pair.now) ≡ pair_of (tables_of hour.now) (plain_holding holding.now) }
    ensures { payoff_of result ≡ figures_at (tables_of hour.now) (plain_holding holding.now) target.value }
{
    Figures {
        quantity: holding.quantity.quantity(),
        target,
        deration: deration_price(hour, holding),
        floor: pair.floor_price(target),
    }
}

/// What a plain instrument means, by what it makes of the spread.
fn plain_figures(rule: TargetRule, hour: &TestedTables, holding: &Holding) -> Option<Figures>
    ensures { option_map payoff_of result ≡ plainly (target_by rule) (tables_of hour.now) (plain_holding holding.now) }
{
    let pair = hour.pair(holding)?;
    let target = target_price(rule, pair.spread());
    Some(figures_at(hour, holding, &pair, target))
}

/// What a plain instrument pays for each MWh at its target price.
fn price_at(hour: &TestedTables, holding: &Holding, pair: &Pair, target: Price) -> Price
    requires { Some (plain_pair pair.now) ≡ pair_of (tables_of hour.now) (plain_holding holding.now) }
    ensures { result.value ≡ payment_price (figures_at (tables_of hour.now) (plain_holding holding.now) target.value) }
{
    let floor = pair.floor_price(target);
    // no deration, whatever it is, brings the price below the target here: the sum over the constraints is spared
    if floor.value == target.value {
        return target;
    }
    payment_price(target, deration_price(hour, holding), floor)
}

/// What a plain instrument pays by, by what it makes of the spread.
fn plain_payment(rule: TargetRule, hour: &TestedTables, holding: &Holding) -> Option<Payment>
    ensures { option_map plain_payment result ≡ option_map rate_of (plainly (target_by rule) (tables_of hour.now) (plain_holding holding.now)) }
{
    let pair = hour.pair(holding)?;
    let target = target_price(rule, pair.spread());
    Some(Payment {
        quantity: holding.quantity.quantity(),
        target,
        price: price_at(hour, holding, &pair, target),
    })
}

/// A PTP Obligation: pays or charges the sink's price less the source's.
#[derive(Clone, Copy)]
pub struct Obligation;

impl Instrument for Obligation {
    ghost means = { λ _ t h. obligation t h };

    ghost rules = { λ i t h. plainly_lawful Spread t h };

    fn figures(&self, hour: &TestedTables, holding: &Holding) -> Option<Figures> {
        plain_figures(TargetRule::Spread, hour, holding)
    }

    fn payment(&self, hour: &TestedTables, holding: &Holding) -> Option<Payment> {
        plain_payment(TargetRule::Spread, hour, holding)
    }
}

// the two instruments differ in their rule alone, which each names where it calls

/// A PTP Option: pays the sink's price less the source's where that is positive.
#[derive(Clone, Copy)]
pub struct PtpOption;

impl Instrument for PtpOption {
    ghost means = { λ _ t h. ptp_option t h };

    ghost rules = { λ i t h. plainly_lawful PositiveSpread t h };

    fn figures(&self, hour: &TestedTables, holding: &Holding) -> Option<Figures> {
        plain_figures(TargetRule::PositiveSpread, hour, holding)
    }

    fn payment(&self, hour: &TestedTables, holding: &Holding) -> Option<Payment> {
        plain_payment(TargetRule::PositiveSpread, hour, holding)
    }
}
