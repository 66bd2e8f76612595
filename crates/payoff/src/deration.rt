ghost use Rattle.std.specs.Prelude.{◌≡◌, ◌*◌, ◌≤◌, true, ◌-ℤ◌};
ghost use Rattle.units.specs.Parts.{positive};
ghost use Rattle.rows.specs.Ranges.{constraint_ok, factor_ok};
ghost use Rattle.rows.specs.Plain.{plain_holding};
ghost use Rattle.payoff.specs.Tables.{pair_ok};
ghost use Rattle.payoff.specs.Prices.{deration_price_of};
ghost use Rattle.payoff.specs.View.{tables_of};

use crate::tested::TestedTables;
use rows::{ConstraintRow, Holding};
use units::{Price, deration_cents};

/// How far the source's shift factor is above the sink's, or 0.
fn factor_gap(source: i16, sink: i16) -> u32
    requires source { factor_ok source ≡ true }
    requires sink { factor_ok sink ≡ true }
    ensures { result ≡ positive (source -ℤ sink) }
{
    // 16 bits hold the difference of two factors, so that the gaps of several constraints are worked out at once
    (source - sink).max(0) as u32
}

/// What a constraint adds to the deration: how far the source's factor is above the sink's, times shadow price, times
/// deration factor, in hundred-millionths of a cent per MWh.
fn deration_term(row: &ConstraintRow, source: i16, sink: i16) -> u64
    requires row { constraint_ok row.now ≡ true }
    requires source { factor_ok source ≡ true }
    requires sink { factor_ok sink ≡ true }
    ensures value { result ≡ positive (source -ℤ sink) * row.now.shadow * row.now.deration }
    ensures most { result ≤ 200000000000000 }
{
    factor_gap(source, sink) as u64 * row.shadow as u64 * row.deration as u64
}

/// The deration price of a holding: summed over every constraint of the hour, and rounded once.
pub(crate) fn deration_price(hour: &TestedTables, holding: &Holding) -> Price
    requires { pair_ok (tables_of hour.now) (plain_holding holding.now) ≡ true }
    ensures { result.value ≡ deration_price_of (tables_of hour.now) (plain_holding holding.now) }
{
    let n = hour.plain.constraints.len();
    let source = holding.source as usize * n;
    let sink = holding.sink as usize * n;
    // a constraint's number is its place in both rows of shift factors; a walk of all three at once was tried, and is slower
    let mut sum: u64 = 0;
    for (c, row) in hour.plain.constraints.iter().enumerate() {
        sum += deration_term(
            row,
            hour.plain.factors[source + c],
            hour.plain.factors[sink + c],
        );
    }
    Price {
        value: deration_cents(sum) as i32,
    }
}
