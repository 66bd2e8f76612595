ghost use Rattle.std.specs.Prelude.{◌≡◌, ◌≤◌, length, Some, None, MatchResult};
ghost use Rattle.refusals.specs.Numbers.{told};
ghost use Rattle.rows.specs.Plain.{plain_day};
ghost use Rattle.ledger.specs.Posting.{money_test};
ghost use Rattle.month.specs.Months.{of_open};
ghost use Rattle.month.specs.Sums.{SumsOf};

use crate::hour::sum_up;
use crate::hour_sums::HourSums;
use crate::state::OpenMonth;
use ledger::Due;
use refusals::{Cause, Refusal};
use rows::Day;

/// The most that an hour's credits or charges, or a month's balance or total shortfall, may come to, in cents.
const LIMIT: u64 = 3_000_000_000;

impl OpenMonth {
    /// The sums of an hour that the month can take, or the refusal: the hour's money first, and then the month's.
    pub(crate) fn afford(&self, day: &Day, dues: &[Due]) -> Result<HourSums, Refusal>
        requires { length dues.now ≤ 1024 }
        ensures { let rent = (plain_day day.now).rent in MatchResult result (λ s. (money_test (of_open self.now) rent dues.now ≡ None) × SumsOf rent dues.now s) (λ e. money_test (of_open self.now) rent dues.now ≡ Some (told e)) }
    {
        let rent = day.rent.value as u64;
        let sums = sum_up(dues);
        if sums.credits.max(sums.charges) > u128::from(LIMIT) {
            return Err(Cause::HourMoney.at(0));
        }
        let credits = sums.credits as u64;
        let charges = sums.charges as u64;
        let short = credits.saturating_sub(rent + charges);
        let left = (rent + charges).saturating_sub(credits);
        if self.balance + left > LIMIT || self.books.shorts + short > LIMIT {
            return Err(Cause::MonthMoney.at(0));
        }
        Ok(HourSums {
            credits,
            charges,
            short,
            left,
        })
    }
}
