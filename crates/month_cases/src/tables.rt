//! The tables that the cases share: a Load Zone, Hubs, and a Resource Node; one constraint without effect.
use ledger::{HourAnswer, LoadLine};
use refusals::Refusal;
use rows::{ConstraintRow, Day, DayRow, FromRow, HoldingRow, PointRow};
use std::io;
use units::Cents;

pub(crate) const CONSTRAINTS: [ConstraintRow; 1] = [ConstraintRow {
    shadow: 0,
    deration: 0,
}];

/// A Hub of a price.
pub(crate) const fn hub(price: i32) -> PointRow {
    PointRow {
        letter: b'H',
        price,
        minimum: 0,
        maximum: 0,
    }
}

pub(crate) const FACTORS: [i16; 4] = [0; 4];

/// An obligation between two points, for hours that are off-peak.
pub(crate) fn obligation(owner: u16, source: u16, sink: u16, quantity: u32) -> HoldingRow {
    HoldingRow {
        owner,
        letter: b'B',
        source,
        sink,
        quantity,
        block: b'N',
        actual: 0,
        real_time: 0,
    }
}

/// Hub 0 at nothing, 1 at 300,000, 2 at 10 and 3 at 6,000 cents.
pub(crate) fn points() -> [PointRow; 4] {
    [hub(0), hub(300_000), hub(10), hub(6_000)]
}

/// An off-peak hour.
pub(crate) fn day(hour: u16, rent: u64) -> Result<Day, Refusal> {
    Day::new(DayRow {
        hour,
        weekday: 0,
        ending: 1,
        rent,
    })
}

pub(crate) fn load(mwh: u32, paid: i64) -> LoadLine {
    LoadLine {
        mwh,
        paid: Cents { value: paid },
    }
}

/// Prints what a post answered.
pub(crate) fn report(
    rt: &impl Print,
    name: &str,
    answer: Result<HourAnswer, Refusal>,
) -> io::Result<()> {
    match answer {
        Ok(a) => println!(rt;
            "{name}: rent {} credits {} charges {} short {} balance {}",
            a.rent.value, a.credits.value, a.charges.value, a.short.value, a.balance.value
        ),
        Err(e) => println!(rt; "{name}: {e}"),
    }
}

/// Prints the refusal of a call, or that it was accepted.
pub(crate) fn refused(rt: &impl Print, name: &str, answer: Result<(), Refusal>) -> io::Result<()> {
    match answer {
        Ok(()) => println!(rt; "{name}: accepted"),
        Err(e) => println!(rt; "{name}: {e}"),
    }
}
