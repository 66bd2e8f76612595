ghost use Rattle.std.specs.Result.{MatchResult};
ghost use Rattle.refusals.specs.Numbers.{told};
ghost use Rattle.month.specs.Months.{of_open, of_closed};
ghost use Rattle.month_settlement.specs.Running.{Ended, EndRefused};

use ledger::{LoadLine, RollLine};
use month::{ClosedMonth, OpenMonth};
use refusals::Refusal;

/// Refunds a month and closes it. Where one of the two is refused, the loads are as they were.
pub(crate) fn refund_and_close(
    month: OpenMonth,
    roll: &mut [RollLine],
    loads: &mut [LoadLine],
) -> Result<ClosedMonth, Refusal>
    ensures { MatchResult result (λ m. Ended (of_open month) roll.old loads.old (of_closed m) roll.new loads.new) (λ e. EndRefused (of_open month) roll.old loads.old (told e) loads.new) }
{
    let refunded = month.refund(roll)?;
    Ok(refunded.close(roll, loads)?)
}
