//! The limits of money: an hour, or a month, that just fits, and one that is a cent over.
use crate::posts::{hour, new_month};
use crate::tables::*;
use ledger::CLEAR_ROLL;
use std::io;

/// Credits and charges of an hour at 3,000,000,000 cents and one over.
pub(crate) fn hour_money(rt: &impl Print) -> io::Result<()> {
    let mut roll = [CLEAR_ROLL; 2];
    let mut m = new_month(&mut roll)?;
    let paid = [obligation(0, 0, 1, 100_000), obligation(1, 0, 2, 1)];
    let charged = [obligation(0, 1, 0, 100_000), obligation(1, 2, 0, 1)];
    report(
        rt,
        "credits a cent over",
        hour(&mut m, &mut roll, 1, 0, &paid),
    )?;
    report(
        rt,
        "credits at the limit",
        hour(&mut m, &mut roll, 1, 3_000_000_000, &paid[0..1]),
    )?;
    report(
        rt,
        "charges a cent over",
        hour(&mut m, &mut roll, 2, 0, &charged),
    )?;
    report(
        rt,
        "charges at the limit",
        hour(&mut m, &mut roll, 744, 0, &charged[0..1]),
    )
}

/// A month's balance and its total shortfall at 3,000,000,000 cents and one over.
pub(crate) fn month_money(rt: &impl Print) -> io::Result<()> {
    let mut roll = [CLEAR_ROLL; 2];
    let mut m = new_month(&mut roll)?;
    let paid = [obligation(0, 0, 1, 100_000)];
    let cent = [obligation(1, 0, 2, 1)];
    report(
        rt,
        "balance at the limit",
        hour(&mut m, &mut roll, 1, 3_000_000_000, &[]),
    )?;
    report(
        rt,
        "balance a cent over",
        hour(&mut m, &mut roll, 2, 1, &[]),
    )?;
    report(
        rt,
        "shortfall at the limit",
        hour(&mut m, &mut roll, 2, 0, &paid),
    )?;
    report(
        rt,
        "shortfall a cent over",
        hour(&mut m, &mut roll, 3, 0, &cent),
    )?;
    report(
        rt,
        "the same hour again",
        hour(&mut m, &mut roll, 2, 0, &[]),
    )
}
