ghost use Rattle.std.specs.Prelude.{◌≡◌, [], length, take, MatchResult};
ghost use Rattle.month.specs.Months.{of_closed, of_told};
ghost use Rattle.month_settlement.specs.Books.{bytes_of, MonthSettled, MonthRefused};

use crate::closing::refund_and_close;
use crate::month_error::MonthError;
use crate::outcomes::{BookedHour, SettledMonth};
use crate::posting_all::post_all;
use crate::progress::Progress;
use ledger::{CLEAR_ROLL, LoadLine, RollLine};
use month::{ClosedMonth, open};
use payoff::Instrument;
use refusals::{Cause, Refusal};
use std::alloc::Global;

/// Settles a month on a roll, and notes what became of each package.
fn settle_on<I: Instrument, P: Progress>(
    roll: &mut [RollLine],
    instrument: &I,
    packages: &[Vec<u8>],
    loads: &mut [LoadLine],
    hours: &mut Vec<Result<BookedHour, Refusal>>,
    progress: &mut P,
) -> Result<ClosedMonth, MonthError>
    requires { hours.old.items ≡ [] }
    ensures { MatchResult result (λ c. MonthSettled (I.means instrument.now) (length roll.old) (bytes_of packages.now) loads.old hours.new.items (of_closed c) roll.new loads.new) (λ e. MonthRefused (I.means instrument.now) (length roll.old) (bytes_of packages.now) loads.old e loads.new) }
{
    let mut month = open(roll)?;
    post_all(&mut month, roll, instrument, packages, hours, progress)?;
    Ok(refund_and_close(month, roll, loads)?)
}

/// Settles a month of so many owners from its packages: each is posted, or refused and set aside, in turn; then the month
/// is refunded and closed, and its rest paid to the loads. Where the month as a whole is refused, or memory fails, the
/// loads are as they were.
pub fn settle_month<I: Instrument, P: Progress>(
    heap: Global,
    instrument: &I,
    owners: usize,
    packages: &[Vec<u8>],
    loads: &mut [LoadLine],
    progress: &mut P,
) -> Result<SettledMonth, MonthError>
    ensures { MatchResult result (λ s. MonthSettled (I.means instrument.now) owners (bytes_of packages.now) loads.old s.hours.items (of_told s.figures) (take owners s.roll) loads.new) (λ e. MonthRefused (I.means instrument.now) owners (bytes_of packages.now) loads.old e loads.new) }
{
    if owners > 128 {
        return Err(MonthError::Refused(Cause::RollSize.at(0)));
    }
    let mut roll = [CLEAR_ROLL; 128];
    let mut hours = Vec::new(heap);
    let closed = settle_on(
        &mut roll[..owners],
        instrument,
        packages,
        loads,
        &mut hours,
        progress,
    )?;
    Ok(SettledMonth {
        hours,
        roll,
        figures: closed.figures(),
    })
}
