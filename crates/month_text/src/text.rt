ghost use Rattle.std.specs.Prelude.{◌≡◌, min, take, IfOk, string_bytes};
ghost use Rattle.month.specs.Months.{of_told};
ghost use Rattle.month_text.specs.Lines.{names_of};
ghost use Rattle.month_text.specs.Months.{month_text};

use crate::hour_lines::push_outcomes;
use crate::totals::push_totals;
use ledger::LoadLine;
use line_text::push_lines;
use month_settlement::SettledMonth;
use std::alloc::{AllocError, Global};

/// A settled month in text: what became of each package, by the name of its file; each owner's line; each load's; the
/// month's totals, and both sides of the money equation. Unless memory fails.
pub fn month_text(
    heap: Global,
    names: &[String],
    month: &SettledMonth,
    loads: &[LoadLine],
) -> Result<String, AllocError>
    ensures { IfOk result (λ s. string_bytes s ≡ month_text (names_of names.now) month.now.hours.items (take (min month.now.figures.owners 128) month.now.roll) loads.now (of_told month.now.figures)) }
{
    let mut text = String::new(heap);
    push_outcomes(&mut text, names, month.hours.as_slice())?;
    let owners = month.figures.owners.min(128);
    push_lines(&mut text, &month.roll[0..owners])?;
    push_lines(&mut text, loads)?;
    push_totals(&mut text, &month.figures)?;
    Ok(text)
}
