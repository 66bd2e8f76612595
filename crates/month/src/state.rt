//! The three states of a month: moved from call to call and never copied. Money is in cents.
ghost use Rattle.std.specs.Prelude.{◌≡◌, ◌+◌, ◌≤◌};
ghost use Rattle.sharing.specs.Shares.{limit};

use crate::books::Books;

/// A month that takes hours.
#[derive(Drop)]
pub struct OpenMonth {
    pub(crate) books: Books,
    pub(crate) balance: u64,
    ghost equation: { books.rents + books.charges + books.shorts ≡ books.credits + balance },
    ghost kept: { balance ≤ limit },
}

/// A month whose shortfall charges were refunded as far as its balance went.
#[derive(Drop)]
pub struct RefundedMonth {
    pub(crate) books: Books,
    pub(crate) refunds: u64,
    pub(crate) balance: u64,
    ghost equation: { books.rents + books.charges + books.shorts ≡ books.credits + refunds + balance },
    ghost due: { refunds ≤ books.shorts },
    ghost kept: { balance ≤ limit },
}

/// A month whose rest went to the loads.
#[derive(Drop)]
pub struct ClosedMonth {
    pub(crate) books: Books,
    pub(crate) refunds: u64,
    pub(crate) payments: u64,
    ghost equation: { books.rents + books.charges + books.shorts ≡ books.credits + refunds + payments },
}
