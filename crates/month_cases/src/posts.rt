//! The posts of the cases: one call, with what differs from case to case.
use crate::tables::*;
use ledger::{CLEAR_HOUR, CLEAR_ROLL, HourAnswer, RollLine};
use month::{OpenMonth, open};
use payoff::{Instrument, Obligation, PlainTables};
use refusals::Refusal;
use rows::HoldingRow;
use std::io;

/// How many amounts and how many hour lines a post may write.
#[derive(Clone, Copy)]
pub(crate) struct Room {
    pub(crate) amounts: usize,
    pub(crate) lines: usize,
}

/// Posts the holdings in an hour of a month.
fn post<I: Instrument>(
    m: &mut OpenMonth,
    roll: &mut [RollLine],
    (number, rent): (u16, u64),
    factors: &[i16],
    holdings: &[HoldingRow],
    instrument: &I,
    room: Room,
) -> Result<HourAnswer, Refusal> {
    let mut sheet = [CLEAR_HOUR; 128];
    let mut amounts = [0i64; 1025];
    let tables = PlainTables {
        constraints: &CONSTRAINTS,
        points: &points(),
        factors,
    };
    m.post(
        roll,
        &day(number, rent)?,
        &tables,
        holdings,
        instrument,
        &mut sheet[..room.lines.min(128)],
        &mut amounts[..room.amounts.min(1025)],
    )
}

/// Posts an hour of obligations, with room for each amount and each owner.
pub(crate) fn hour(
    m: &mut OpenMonth,
    roll: &mut [RollLine],
    number: u16,
    rent: u64,
    holdings: &[HoldingRow],
) -> Result<HourAnswer, Refusal> {
    let room = Room {
        amounts: 1025,
        lines: roll.len(),
    };
    post(
        m,
        roll,
        (number, rent),
        &FACTORS,
        holdings,
        &Obligation,
        room,
    )
}

/// Posts the holdings in hour 1 of a new month of two owners.
pub(crate) fn first_hour<I: Instrument>(
    holdings: &[HoldingRow],
    instrument: &I,
    factors: &[i16],
    room: Room,
) -> Result<HourAnswer, Refusal> {
    let mut roll = [CLEAR_ROLL; 2];
    let mut m = open(&mut roll)?;
    post(
        &mut m,
        &mut roll,
        (1, 0),
        factors,
        holdings,
        instrument,
        room,
    )
}

/// Opens the month of a roll that no case refuses.
pub(crate) fn new_month(roll: &mut [RollLine]) -> io::Result<OpenMonth> {
    open(roll).map_err(unexpected)
}

/// A refusal that no case expects. It goes with the errors of output, which are told as they are.
pub(crate) fn unexpected(_: Refusal) -> io::Error {
    io::Error::other("refused where it is not")
}
