ghost use Rattle.std.specs.Prelude.{◌≡◌, ◌++◌, map, length, OnOk};
ghost use Rattle.refusals.specs.Numbers.{told_by};
ghost use Rattle.ledger.specs.Ledger.{blank};
ghost use Rattle.ledger.specs.Runs.{Stands};
ghost use Rattle.month.specs.Months.{of_open};
ghost use Rattle.month_settlement.specs.Books.{bytes_of, ledger_of, outcomes_of};
ghost use Rattle.month_settlement.specs.Running.{RanTo, PostedAll};

use crate::booking::book_hour;
use crate::outcomes::BookedHour;
use crate::progress::Progress;
use ledger::RollLine;
use month::OpenMonth;
use payoff::Instrument;
use refusals::Refusal;
use std::alloc::AllocError;

/// Posts every package's hour in turn, and notes what became of it.
pub(crate) fn post_all<I: Instrument, P: Progress>(
    month: &mut OpenMonth,
    roll: &mut [RollLine],
    instrument: &I,
    packages: &[Vec<u8>],
    hours: &mut Vec<Result<BookedHour, Refusal>>,
    progress: &mut P,
) -> Result<(), AllocError>
    ensures { OnOk result (Stands (length roll.old) (of_open month.old) roll.old → PostedAll (I.means instrument.now) (length roll.old) (bytes_of packages.now) (of_open month.old) roll.old hours.old.items (of_open month.new) roll.new hours.new.items) }
{
    for package in packages {
        let outcome = book_hour(month, roll, instrument, package.as_slice());
        hours.push(outcome)?;
        progress.hours_done(hours.len());
    }
    Ok(())
}
