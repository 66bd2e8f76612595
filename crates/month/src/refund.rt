ghost use Rattle.std.specs.Prelude.{◌≡◌, MatchResult};
ghost use Rattle.refusals.specs.Numbers.{told};
ghost use Rattle.ledger.specs.Calls.{refund_sum, RefundAccepted, RefundRefused};
ghost use Rattle.month.specs.Months.{of_open, of_refunded};

use crate::handed_back::HandedBack;
use crate::state::{OpenMonth, RefundedMonth};
use ledger::RollLine;
use refusals::Cause;

impl OpenMonth {
    /// What is refunded in all: the smaller of balance and total shortfall.
    fn refund_sum(&self) -> u64
        ensures { result ≡ refund_sum (of_open self.now) }
    {
        self.balance.min(self.books.shorts)
    }

    /// Refunds the shortfall charges as far as the balance goes: the smaller of balance and total shortfall, shared
    /// over the roll lines by shortfall charge. A refused refund hands the month back.
    pub fn refund(self, roll: &mut [RollLine]) -> Result<RefundedMonth, HandedBack<OpenMonth>>
        ensures { MatchResult result (λ m. RefundAccepted (of_open self) roll.old (of_refunded m) roll.new) (λ back. RefundRefused (of_open self) roll.old (told back.refusal) (of_open back.month) roll.new) }
    {
        if !self.books.holds(0, roll) {
            return Err(HandedBack {
                month: self,
                refusal: Cause::RollMismatch.at(0),
            });
        }
        let refunds = self.refund_sum();
        sharing::share(roll, refunds, self.books.shorts);
        Ok(RefundedMonth {
            balance: self.balance - refunds,
            books: self.books,
            refunds,
        })
    }
}
