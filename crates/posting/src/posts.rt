ghost use Rattle.std.specs.Result.{MatchResult};
ghost use Rattle.refusals.specs.Numbers.{told};
ghost use Rattle.ledger.specs.Posting.{PostAccepted, PostRefused};
ghost use Rattle.month.specs.Months.{of_open};
ghost use Rattle.hours.specs.Read.{tables_in};
ghost use Rattle.posting.specs.Posts.{posting_on};

use hours::HourTables;
use ledger::{HourAnswer, HourLine, RollLine};
use month::OpenMonth;
use payoff::Instrument;
use refusals::Refusal;

/// Posts an hour that was read, under an instrument: writes its sheet and its amounts, and answers its figures. A refused
/// post changes nothing.
#[tactic(auto, using(crate::proofs::Lent::posted_as_lem))]
pub fn post_hour<I: Instrument>(
    month: &mut OpenMonth,
    roll: &mut [RollLine],
    hour: &HourTables,
    instrument: &I,
    sheet: &mut [HourLine],
    amounts: &mut [i64],
) -> Result<HourAnswer, Refusal>
    ensures { MatchResult result (λ a. PostAccepted (of_open month.old) roll.old (posting_on (I.means instrument.now) (tables_in hour.now) sheet.old amounts.old) a (of_open month.new) roll.new sheet.new amounts.new) (λ e. PostRefused (of_open month.old) roll.old (posting_on (I.means instrument.now) (tables_in hour.now) sheet.old amounts.old) (told e) (of_open month.new) roll.new sheet.new amounts.new) }
{
    month.post(
        roll,
        &hour.day(),
        &hour.tables(),
        hour.holdings(),
        instrument,
        sheet,
        amounts,
    )
}
