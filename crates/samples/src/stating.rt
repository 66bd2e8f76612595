use anyhow::{Context, anyhow};
use rows::{Day, DayRow, FromRow, HoldingRow};
use statement::{HourFigures, write_statement};

/// Prints the statement of an hour with two holdings, of which one pays and one is paid.
pub(crate) fn state(rt: &HostRuntime) -> anyhow::Result<()> {
    let day = Day::new(DayRow {
        hour: 744,
        weekday: 6,
        ending: 24,
        rent: 10_000,
    })
    .map_err(|_| anyhow!("no hour"))?;
    let holding = HoldingRow {
        owner: 127,
        letter: b'o',
        source: 3,
        sink: 0,
        quantity: 100,
        block: b'N',
        actual: 50,
        real_time: 25,
    };
    let figures = HourFigures {
        rent: 10_000,
        credits: 6_400,
        charges: 9_223_372_036_854_775_807,
        shortfall: 0,
        balance: -9_223_372_036_854_775_808,
    };
    let mut out = vec![in rt.alloc(); 0u8; 300]?;
    let n = write_statement(
        &day,
        &[holding, holding],
        &[-6_400, 0],
        &figures,
        out.as_mut_slice(),
    )
    .map_err(|_| anyhow!("refused"))?;
    let bytes = out.as_slice().get(..n).context("longer than its buffer")?;
    let text = std::str::from_utf8(bytes).map_err(|_| anyhow!("no text"))?;
    print!(rt; "{text}")?;
    Ok(())
}
