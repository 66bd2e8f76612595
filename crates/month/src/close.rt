ghost use Rattle.std.specs.Prelude.{◌≡◌, Some, None, MatchResult};
ghost use Rattle.refusals.specs.Numbers.{told};
ghost use Rattle.ledger.specs.Calls.{loads_test, close_test, after_close, CloseAccepted, CloseRefused};
ghost use Rattle.month.specs.Months.{of_refunded, of_closed};

use crate::handed_back::HandedBack;
use crate::loads::load_total;
use crate::state::{ClosedMonth, RefundedMonth};
use ledger::{LoadLine, RollLine};
use refusals::{Cause, Refusal};
use rows::first_bad;

/// Tests that no load line is outside its limits.
fn test_loads(loads: &[LoadLine]) -> Result<(), Refusal>
    ensures { MatchResult result (λ _. loads_test loads.now ≡ None) (λ e. loads_test loads.now ≡ Some (told e)) }
{
    if loads.len() > 64 {
        return Err(Cause::LoadLine.at(0));
    }
    if let Some(place) = first_bad(loads) {
        return Err(Cause::LoadLine.at(place));
    }
    Ok(())
}

impl RefundedMonth {
    /// Tests that the month may be closed: its roll, the load lines, and a load for what is left.
    fn test_close(&self, roll: &[RollLine], loads: &[LoadLine]) -> Result<(), Refusal>
        ensures { MatchResult result (λ _. close_test (of_refunded self.now) roll.now loads.now ≡ None) (λ e. close_test (of_refunded self.now) roll.now loads.now ≡ Some (told e)) }
    {
        if !self.books.holds(self.refunds, roll) {
            return Err(Cause::RollMismatch.at(0));
        }
        test_loads(loads)?;
        if self.balance > 0 && load_total(loads) == 0 {
            return Err(Cause::NoLoad.at(0));
        }
        Ok(())
    }

    /// The month once its rest has gone to the loads.
    fn paid_out(self) -> ClosedMonth
        ensures { of_closed result ≡ after_close (of_refunded self) }
    {
        ClosedMonth {
            books: self.books,
            refunds: self.refunds,
            payments: self.balance,
        }
    }

    /// Pays the rest of the month out to the loads by MWh, and closes it. A refused close hands the month back.
    pub fn close(
        self,
        roll: &[RollLine],
        loads: &mut [LoadLine],
    ) -> Result<ClosedMonth, HandedBack<RefundedMonth>>
        ensures { MatchResult result (λ m. CloseAccepted (of_refunded self) roll.now loads.old (of_closed m) loads.new) (λ back. CloseRefused (of_refunded self) roll.now loads.old (told back.refusal) (of_refunded back.month) loads.new) }
    {
        // a map_err would take the month before its test is made
        if let Err(refusal) = self.test_close(roll, loads) {
            return Err(HandedBack {
                month: self,
                refusal,
            });
        }
        let total = load_total(loads);
        sharing::share(loads, self.balance, total);
        Ok(self.paid_out())
    }
}
