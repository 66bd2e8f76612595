ghost use Rattle.std.specs.Prelude.{length};
ghost use Rattle.refusals.specs.Numbers.{told_by};
ghost use Rattle.month.specs.Months.{of_open};
ghost use Rattle.month_settlement.specs.Running.{Booking};

use crate::outcomes::BookedHour;
use format::MOST_HOLDINGS;
use hours::HourTables;
use ledger::{CLEAR_HOUR, RollLine};
use month::OpenMonth;
use payoff::Instrument;
use posting::post_hour;
use refusals::Refusal;

/// Reads a package and posts its hour. A refused package changes nothing.
pub(crate) fn book_hour<I: Instrument>(
    month: &mut OpenMonth,
    roll: &mut [RollLine],
    instrument: &I,
    bytes: &[u8],
) -> Result<BookedHour, Refusal>
    ensures { Booking (I.means instrument.now) (length roll.old) bytes.now (of_open month.old) roll.old (told_by (λ h. h) result) (of_open month.new) roll.new }
{
    let mut tables = HourTables::new();
    tables.read(bytes)?;
    let owners = roll.len().min(128);
    let mut sheet = [CLEAR_HOUR; 128];
    let mut amounts = [0i64; MOST_HOLDINGS];
    let answer = post_hour(
        month,
        roll,
        &tables,
        instrument,
        &mut sheet[..owners],
        &mut amounts,
    )?;
    Ok(BookedHour {
        hour: tables.day().hour,
        answer,
    })
}
