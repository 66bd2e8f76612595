ghost use Rattle.std.specs.Prelude.{◌≡◌, ℕ, ◌≤◌, true, false, length, MatchOption};
ghost use Rattle.sharing.specs.Shares.{limit};
ghost use Rattle.ledger.specs.Figures.{every, line_within, column_sum, tied};
ghost use Rattle.month.specs.Months.{of_books};

use crate::books::Books;
use ledger::{RollLine, is_within, positive_cents};

/// The sum of each figure over a roll.
#[derive(Clone, Copy, PartialEq, Eq)]
struct RollSums {
    credits: u64,
    charges: u64,
    shorts: u64,
    refunds: u64,
}

impl Books {
    /// Whether no figure of a line is negative or above the month's.
    fn bounds_line(&self, refunds: u64, x: &RollLine) -> bool
        ensures { result ≡ line_within (of_books self.now refunds 0 0) x.now }
    {
        is_within(&x.credit, self.credits)
            && is_within(&x.charge, self.charges)
            && is_within(&x.short, self.shorts)
            && is_within(&x.refund, refunds)
    }

    /// The sum of each figure over a roll, or none where a figure is negative or above the month's.
    // one loop: a chain for each column walks the roll five times, and does not know what a line has passed
    fn sums_over(&self, refunds: u64, roll: &[RollLine]) -> Option<RollSums>
        requires few { length roll.now ≤ 128 }
        requires small { refunds ≤ limit }
        ensures { MatchOption result (every (line_within (of_books self.now refunds 0 0)) roll.now ≡ false) (λ s. (every (line_within (of_books self.now refunds 0 0)) roll.now ≡ true) × ((s.credits ≡ column_sum (λ x. x.credit) roll.now) × ((s.charges ≡ column_sum (λ x. x.charge) roll.now) × ((s.shorts ≡ column_sum (λ x. x.short) roll.now) × (s.refunds ≡ column_sum (λ x. x.refund) roll.now))))) }
    {
        let mut credits: u64 = 0;
        let mut charges: u64 = 0;
        let mut shorts: u64 = 0;
        let mut repaid: u64 = 0;
        for x in roll {
            if !self.bounds_line(refunds, x) {
                return None;
            }
            credits += positive_cents(&x.credit);
            charges += positive_cents(&x.charge);
            shorts += positive_cents(&x.short);
            repaid += positive_cents(&x.refund);
        }
        Some(RollSums {
            credits,
            charges,
            shorts,
            refunds: repaid,
        })
    }

    /// Whether the roll is the one of these books and of what was refunded; the rest of the month has no part in it.
    pub(crate) fn holds(&self, refunds: u64, roll: &[RollLine]) -> bool
        requires { refunds ≤ limit }
        ensures { (balance payments : ℕ) → result ≡ tied (of_books self.now refunds balance payments) roll.now }
    {
        if roll.len() != self.owners {
            return false;
        }
        let Some(sums) = self.sums_over(refunds, roll) else {
            return false;
        };
        let own = RollSums {
            credits: self.credits,
            charges: self.charges,
            shorts: self.shorts,
            refunds,
        };
        sums == own
    }
}
