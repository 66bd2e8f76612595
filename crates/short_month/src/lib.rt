//! A month of two hours, from open to close: real calls, held to what open promises of every run.

#![tactic(auto)]

ghost use Rattle.std.specs.Prelude.{◌≡◌, MatchResult};
ghost use Rattle.rows.specs.Plain.{plain_day};
ghost use Rattle.payoff.specs.Plain.{plain_tables};
ghost use Rattle.month.specs.Months.{of_closed};
ghost use Rattle.short_month.specs.TwoHours.{hour, TwoHours};

use ledger::{CLEAR_HOUR, CLEAR_ROLL, LoadLine};
use month::{ClosedMonth, open};
use payoff::{Instrument, PlainTables};
use refusals::Refusal;
use rows::{Day, HoldingRow};

/// Settles a month of 128 owners in which the same holdings stand for two hours, and pays its rest out to the loads.
/// Where one of the calls refuses, the loads are as they were.
pub fn settle_two_hours<I: Instrument>(
    first: &Day,
    second: &Day,
    tables: &PlainTables,
    holdings: &[HoldingRow],
    instrument: &I,
    loads: &mut [LoadLine],
) -> Result<ClosedMonth, Refusal>
    ensures { MatchResult result (λ m. TwoHours (hour (I.means instrument.now) (plain_tables tables.now) holdings.now (plain_day first.now)) (hour (I.means instrument.now) (plain_tables tables.now) holdings.now (plain_day second.now)) loads.old (of_closed m) loads.new) (λ _. loads.new ≡ loads.old) }
{
    let mut roll = [CLEAR_ROLL; 128];
    let mut sheet = [CLEAR_HOUR; 128];
    let mut amounts = [0i64; 1024];
    let mut m = open(&mut roll)?;
    let _ = m.post(
        &mut roll,
        first,
        tables,
        holdings,
        instrument,
        &mut sheet,
        &mut amounts,
    )?;
    let _ = m.post(
        &mut roll,
        second,
        tables,
        holdings,
        instrument,
        &mut sheet,
        &mut amounts,
    )?;
    let m = m.refund(&mut roll)?;
    let closed = m.close(&roll, loads)?;
    Ok(closed)
}
