//! Sizes, holdings in turn, a whole month with refused calls between, and the largest hour.
use crate::posts::{Room, first_hour, hour, new_month, unexpected};
use crate::tables::*;
use ledger::{CLEAR_ROLL, HourAnswer, LoadLine, RollLine};
use month::{ClosedFigures, OpenMonth, RefundedMonth, open};
use payoff::{Obligation, Refund};
use refusals::Refusal;
use rows::HoldingRow;
use std::io;
use units::Cents;

/// Rolls that are empty or too long.
pub(crate) fn sizes(rt: &impl Print) -> io::Result<()> {
    let mut long = [CLEAR_ROLL; 129];
    let mut none = [CLEAR_ROLL; 0];
    refused(rt, "a roll of 129 lines", opened(&mut long))?;
    refused(rt, "a roll of no line", opened(&mut none))?;
    refused(rt, "a roll of 128 lines", opened(&mut long[0..128]))
}

fn opened(roll: &mut [RollLine]) -> Result<(), Refusal> {
    let _ = open(roll)?;
    Ok(())
}

/// Room for eight amounts and two hour lines.
const ROOM: Room = Room {
    amounts: 8,
    lines: 2,
};

/// Posts obligations in hour 1 of a new month.
fn obliged(holdings: &[HoldingRow]) -> Result<HourAnswer, Refusal> {
    first_hour(holdings, &Obligation, &FACTORS, ROOM)
}

/// Tables of wrong sizes, and entries out of range.
pub(crate) fn sizes_and_entries(rt: &impl Print) -> io::Result<()> {
    let good = obligation(0, 0, 3, 100);
    let mut odd = obligation(1, 0, 3, 100);
    odd.letter = b'X';
    report(rt, "accepted", obliged(&[good, obligation(1, 3, 0, 10)]))?;
    report(
        rt,
        "too few amounts",
        first_hour(
            &[good, good],
            &Obligation,
            &FACTORS,
            Room { amounts: 1, ..ROOM },
        ),
    )?;
    report(
        rt,
        "a sheet too long",
        first_hour(&[good], &Obligation, &FACTORS, Room { lines: 3, ..ROOM }),
    )?;
    report(
        rt,
        "too few shift factors",
        first_hour(&[good], &Obligation, &FACTORS[0..3], ROOM),
    )?;
    report(
        rt,
        "a shift factor out of range",
        first_hour(&[good], &Obligation, &[0, 0, 10_001, 0], ROOM),
    )?;
    report(rt, "a letter out of range", obliged(&[good, odd]))
}

/// Holdings that fail a test in turn, each with its place.
pub(crate) fn holdings_in_turn(rt: &impl Print) -> io::Result<()> {
    let good = obligation(0, 0, 3, 100);
    let mut peak = obligation(1, 0, 3, 100);
    peak.block = b'W';
    report(
        rt,
        "an owner off the roll",
        obliged(&[good, obligation(2, 0, 3, 100)]),
    )?;
    report(
        rt,
        "a point twice",
        obliged(&[good, obligation(1, 3, 3, 100)]),
    )?;
    report(rt, "another block", obliged(&[good, peak]))?;
    report(
        rt,
        "a holding twice",
        obliged(&[good, obligation(1, 0, 3, 100), good]),
    )?;
    // Refund is not for a pair of Hubs
    report(
        rt,
        "not served",
        first_hour(&[good], &Refund(Obligation), &FACTORS, ROOM),
    )
}

/// Credits of 6,000 and 4,000 and a charge of 1,000.
fn settled_hour() -> [HoldingRow; 3] {
    [
        obligation(0, 0, 3, 10),
        obligation(1, 0, 2, 4_000),
        obligation(0, 2, 0, 1_000),
    ]
}

/// A month of two hours with refused calls between, and its refund.
pub(crate) fn whole_month(rt: &impl Print) -> io::Result<()> {
    let mut roll = [CLEAR_ROLL; 2];
    let mut m = new_month(&mut roll)?;
    let held = settled_hour();
    report(rt, "hour 2", hour(&mut m, &mut roll, 2, 4_000, &held))?;
    report(
        rt,
        "hour 1 after it",
        hour(&mut m, &mut roll, 1, 4_000, &held),
    )?;
    roll[0].credit = Cents { value: 6_001 };
    report(
        rt,
        "a roll line changed",
        hour(&mut m, &mut roll, 3, 9_000, &[]),
    )?;
    roll[0].credit = Cents { value: 6_000 };
    report(rt, "hour 3", hour(&mut m, &mut roll, 3, 9_000, &[]))?;
    roll[1].short = Cents { value: -1 };
    let m = refused_refund(rt, m, &mut roll)?;
    roll[1].short = Cents { value: 2_000 };
    let m = m
        .refund(&mut roll)
        .map_err(|back| unexpected(back.refusal))?;
    refunds(rt, &roll[0], &roll[1])?;
    closing(rt, m, &roll)
}

/// Refunds a month whose roll has a negative figure: it is handed back.
fn refused_refund(rt: &impl Print, m: OpenMonth, roll: &mut [RollLine]) -> io::Result<OpenMonth> {
    match m.refund(roll) {
        Ok(_) => Err(io::Error::other("a negative figure is refunded")),
        Err(back) => {
            println!(rt; "refund with a negative figure: {}", back.refusal)?;
            Ok(back.month)
        }
    }
}

fn refunds(rt: &impl Print, first: &RollLine, second: &RollLine) -> io::Result<()> {
    println!(rt;
        "refunds {} and {}",
        first.refund.value, second.refund.value
    )
}

/// Closes the month on loads that are refused: it is handed back.
fn refused_close(
    rt: &impl Print,
    m: RefundedMonth,
    roll: &[RollLine],
    loads: &mut [LoadLine],
) -> io::Result<RefundedMonth> {
    match m.close(roll, loads) {
        Ok(_) => Err(io::Error::other("loads outside their limits are taken")),
        Err(back) => {
            println!(rt; "close: {}", back.refusal)?;
            Ok(back.month)
        }
    }
}

/// Loads that are too many, too large, paid before, and without MWh; then loads of 1 and 3 MWh.
fn closing(rt: &impl Print, m: RefundedMonth, roll: &[RollLine]) -> io::Result<()> {
    let m = refused_close(rt, m, roll, &mut [load(1, 0); 65])?;
    let m = refused_close(rt, m, roll, &mut [load(1, 0), load(40_000_001, 0)])?;
    let m = refused_close(rt, m, roll, &mut [load(1, 0), load(1, 0), load(1, 5)])?;
    let m = refused_close(rt, m, roll, &mut [load(0, 0); 2])?;
    let mut loads = [load(1, 0), load(3, 0)];
    let m = m
        .close(roll, &mut loads)
        .map_err(|back| unexpected(back.refusal))?;
    figures(rt, &m.figures())?;
    println!(rt;
        "loads get {} and {}",
        loads[0].paid.value, loads[1].paid.value
    )
}

/// Prints the figures of a closed month.
fn figures(rt: &impl Print, told: &ClosedFigures) -> io::Result<()> {
    println!(rt;
        "closed: hours {} rents {} credits {} charges {} short {} refunds {} payments {}",
        told.hours,
        told.rents,
        told.credits,
        told.charges,
        told.shortfall_charges,
        told.refunds,
        told.load_payments
    )
}

/// Eight pairs of points.
const PAIRS: [(u16, u16); 8] = [
    (0, 2),
    (2, 0),
    (0, 3),
    (3, 0),
    (2, 3),
    (3, 2),
    (1, 3),
    (3, 1),
];

/// 128 owners and 1,024 holdings; the last made the first again; and one holding too many.
pub(crate) fn largest_hour(rt: &impl Print) -> io::Result<()> {
    let mut roll = [CLEAR_ROLL; 128];
    let mut m = new_month(&mut roll)?;
    let mut held = [obligation(0, 0, 0, 1); 1025];
    for (i, holding) in held.iter_mut().enumerate() {
        let (source, sink) = PAIRS[i % 8];
        *holding = obligation((i / 8) as u16, source, sink, 10);
    }
    report(
        rt,
        "a holding too many",
        hour(&mut m, &mut roll, 1, 0, &held),
    )?;
    let last = held[1023];
    held[1023] = held[0];
    report(
        rt,
        "the last is the first",
        hour(&mut m, &mut roll, 1, 0, &held[0..1024]),
    )?;
    held[1023] = last;
    report(
        rt,
        "the largest hour",
        hour(&mut m, &mut roll, 1, 0, &held[0..1024]),
    )
}
