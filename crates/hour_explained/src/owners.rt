ghost use Rattle.std.specs.Prelude.{◌≡◌, ◌++◌, string_bytes, OnOk};
ghost use Rattle.refusals.specs.Numbers.{told_by};
ghost use Rattle.hours.specs.Read.{tables_in};
ghost use Rattle.hour_explained.specs.Explained.{owners_in, owners_text};
ghost use Rattle.hour_explained.specs.Sheet.{first_sheet};

use format::MOST_HOLDINGS;
use hours::HourTables;
use ledger::{CLEAR_HOUR, CLEAR_ROLL, HourLine};
use line_text::push_lines;
use month::open;
use payoff::Instrument;
use posting::post_hour;
use refusals::Refusal;
use rows::HoldingRow;
use std::alloc::AllocError;

/// How many owners there are up to the last that holds anything.
fn owners_in(holdings: &[HoldingRow]) -> usize
    ensures { result ≡ owners_in holdings.now }
{
    holdings.iter().fold(0, |owners, holding| {
        owners.max(holding.owner as usize + 1)
    })
}

/// The hour sheet of an hour that is posted as the first of a month of 128 owners, or its refusal.
fn first_sheet<I: Instrument>(instrument: &I, hour: &HourTables) -> Result<[HourLine; 128], Refusal>
    ensures { told_by (λ sheet. sheet) result ≡ first_sheet (I.means instrument.now) (tables_in hour.now) }
{
    let mut roll = [CLEAR_ROLL; 128];
    let mut sheet = [CLEAR_HOUR; 128];
    let mut amounts = [0i64; MOST_HOLDINGS];
    let mut month = open(&mut roll)?;
    let _ = post_hour(
        &mut month,
        &mut roll,
        hour,
        instrument,
        &mut sheet,
        &mut amounts,
    )?;
    Ok(sheet)
}

/// Appends each owner's credit, charge and shortfall charge of the hour, posted as the first of a month of 128 owners; or
/// why it is refused.
pub(crate) fn push_owners<I: Instrument>(
    text: &mut String,
    instrument: &I,
    hour: &HourTables,
) -> Result<(), AllocError>
    ensures { OnOk result (string_bytes text.new ≡ string_bytes text.old ++ owners_text (I.means instrument.now) (tables_in hour.now)) }
{
    match first_sheet(instrument, hour) {
        Ok(sheet) => {
            let owners = owners_in(hour.holdings()).min(128);
            push_lines(text, &sheet[..owners])
        }
        Err(refusal) => writeln!(text, "hour {refusal}"),
    }
}
