ghost use Rattle.std.specs.Prelude.{◌≡◌, IfOk, string_bytes};
ghost use Rattle.hours.specs.Read.{tables_in};
ghost use Rattle.hour_explained.specs.Explained.{hour_text, package_text};

use crate::owners::push_owners;
use explanation::explain_holdings;
use hours::HourTables;
use payoff::Instrument;
use std::alloc::{AllocError, Global};

/// Tells of each holding of an hour every figure, or why it is refused; and then each owner's figures.
fn explain_hour<I: Instrument>(
    heap: Global,
    instrument: &I,
    hour: &HourTables,
) -> Result<String, AllocError>
    ensures { IfOk result (λ s. string_bytes s ≡ hour_text (I.means instrument.now) (tables_in hour.now)) }
{
    let mut text = explain_holdings(heap, instrument, &hour.tables(), hour.holdings())?;
    push_owners(&mut text, instrument, hour)?;
    Ok(text)
}

/// Reads a package and tells of each of its holdings every figure, or why it is refused, and of each owner its credit,
/// charge and shortfall charge, or why the hour is refused; or why the package is.
pub fn explain_package<I: Instrument>(
    heap: Global,
    instrument: &I,
    bytes: &[u8],
) -> Result<String, AllocError>
    ensures { IfOk result (λ s. string_bytes s ≡ package_text (I.means instrument.now) bytes.now) }
{
    let mut hour = HourTables::new();
    match hour.read(bytes) {
        Ok(()) => explain_hour(heap, instrument, &hour),
        Err(refusal) => format!(in heap; "{refusal}\n"),
    }
}
