ghost use Rattle.std.specs.Prelude.{length, IfOk, MatchResult};
ghost use Rattle.refusals.specs.Numbers.{told};
ghost use Rattle.ledger.specs.Calls.{OpenAccepted, OpenRefused};
ghost use Rattle.ledger.specs.Runs.{Stands};
ghost use Rattle.month.specs.Months.{of_open};

use crate::books::Books;
use crate::state::OpenMonth;
use ledger::{CLEAR_ROLL, RollLine};
use refusals::{Cause, Refusal};

/// Clears the roll, a line for each owner, and opens its month.
///
/// `runs` says what every run of calls on this month and roll keeps, whatever is done to other months between.
pub fn open(roll: &mut [RollLine]) -> Result<OpenMonth, Refusal>
    ensures done { MatchResult result (λ m. OpenAccepted roll.old (of_open m) roll.new) (λ e. OpenRefused roll.old (told e) roll.new) }
    ensures runs { IfOk result (λ m. Stands (length roll.old) (of_open m) roll.new) }
{
    let owners = roll.len();
    if !(1..=128).contains(&owners) {
        return Err(Cause::RollSize.at(0));
    }
    roll.fill(CLEAR_ROLL);
    Ok(OpenMonth {
        books: Books {
            owners,
            hours: 0,
            last: 0,
            rents: 0,
            credits: 0,
            charges: 0,
            shorts: 0,
        },
        balance: 0,
    })
}
