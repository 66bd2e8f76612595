ghost use Rattle.std.specs.Prelude.{◌≡◌, ◌++◌, IfOk, string_bytes, OnOk};
ghost use Rattle.refusals.specs.Numbers.{told_by, told};
ghost use Rattle.payoff.specs.Plain.{plain_tables};
ghost use Rattle.payoff.specs.View.{tables_of};
ghost use Rattle.pricing.specs.Calls.{plain_pricing};
ghost use Rattle.explanation.specs.Lines.{refused_text, prices_text, amounts_text, answer_text, answer_at, holding_line, lines_from, explanation_of};

use payoff::{Instrument, PlainTables, TestedTables, test_tables};
use pricing::{Pricing, price_in};
use refusals::{Cause, Refusal};
use rows::{FromRow, Holding, HoldingRow};
use std::alloc::{AllocError, Global};

/// Appends the four figures and the hedge price.
fn push_prices(text: &mut String, p: &Pricing) -> Result<(), AllocError>
    ensures { OnOk result (string_bytes text.new ≡ string_bytes text.old ++ prices_text (plain_pricing p.now)) }
{
    write!(
        text,
        "quantity {} target {} deration {} floor {} hedge {}",
        p.quantity.value,
        p.target_price.value,
        p.deration_price.value,
        p.floor_price.value,
        p.hedge_price.value
    )
}

/// Appends the amounts.
fn push_amounts(text: &mut String, p: &Pricing) -> Result<(), AllocError>
    ensures { OnOk result (string_bytes text.new ≡ string_bytes text.old ++ amounts_text (plain_pricing p.now)) }
{
    write!(
        text,
        " amount {} target amount {} floor amount {} derated amount {} hedge value {}",
        p.amount.value, p.target.value, p.floor.value, p.derated.value, p.hedge_value.value
    )
}

/// Appends every figure, or the refusal.
fn push_answer(text: &mut String, answer: &Result<Pricing, Refusal>) -> Result<(), AllocError>
    ensures { OnOk result (string_bytes text.new ≡ string_bytes text.old ++ answer_text (told_by plain_pricing answer.now)) }
{
    match answer {
        Ok(p) => {
            push_prices(text, p)?;
            push_amounts(text, p)
        }
        Err(refusal) => write!(text, "{refusal}"),
    }
}

/// The pricing of a holding of the list, or its refusal where it stands.
fn answer_at<I: Instrument>(
    instrument: &I,
    hour: &TestedTables,
    place: usize,
    row: &HoldingRow,
) -> Result<Pricing, Refusal>
    ensures { told_by plain_pricing result ≡ answer_at (I.means instrument.now) (tables_of hour.now) place row.now }
{
    let holding = Holding::typed(row).ok_or(Cause::BadEntry.at(place))?;
    price_in(instrument, hour, &holding, place)
}

/// Appends a holding's line.
fn push_line(
    text: &mut String,
    place: usize,
    row: &HoldingRow,
    answer: &Result<Pricing, Refusal>,
) -> Result<(), AllocError>
    ensures { OnOk result (string_bytes text.new ≡ string_bytes text.old ++ holding_line place row.now (told_by plain_pricing answer.now)) }
{
    write!(
        text,
        "holding {place} {} {} to {}: ",
        row.letter as char, row.source, row.sink
    )?;
    push_answer(text, answer)?;
    writeln!(text)
}

/// Appends a line for each holding of an hour whose tables have been tested.
fn push_lines<I: Instrument>(
    text: &mut String,
    instrument: &I,
    hour: &TestedTables,
    holdings: &[HoldingRow],
) -> Result<(), AllocError>
    ensures { OnOk result (string_bytes text.new ≡ string_bytes text.old ++ lines_from (I.means instrument.now) (tables_of hour.now) 0 holdings.now) }
{
    for (place, row) in holdings.iter().enumerate() {
        let answer = answer_at(instrument, hour, place, row);
        push_line(text, place, row, &answer)?;
    }
    Ok(())
}

/// A line for each holding of an hour, under any instrument, or the refusal of the hour's tables.
pub fn explain_holdings<I: Instrument>(
    heap: Global,
    instrument: &I,
    tables: &PlainTables,
    holdings: &[HoldingRow],
) -> Result<String, AllocError>
    ensures { IfOk result (λ s. string_bytes s ≡ explanation_of (I.means instrument.now) (plain_tables tables.now) holdings.now) }
{
    let mut text = String::new(heap);
    match test_tables(tables) {
        Ok(hour) => push_lines(&mut text, instrument, &hour, holdings)?,
        Err(refusal) => writeln!(text, "{refusal}")?,
    }
    Ok(text)
}
