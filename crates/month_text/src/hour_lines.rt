ghost use Rattle.std.specs.Prelude.{◌≡◌, ◌++◌, string_bytes, OnOk};
ghost use Rattle.refusals.specs.Numbers.{told};
ghost use Rattle.line_text.specs.Lines.{lines_by};
ghost use Rattle.month_text.specs.Lines.{booked_head, booked_tail, booked_text, refused_in, outcome_text, outcome_line, name_at, names_of};

use month_settlement::BookedHour;
use refusals::Refusal;
use std::alloc::AllocError;

/// Appends an hour's number, rent and credits.
fn push_head(text: &mut String, booked: &BookedHour) -> Result<(), AllocError>
    ensures { OnOk result (string_bytes text.new ≡ string_bytes text.old ++ booked_head booked.now) }
{
    write!(
        text,
        "hour {} rent {} credit {}",
        booked.hour, booked.answer.rent.value, booked.answer.credits.value
    )
}

/// Appends its charges and shortfall, and the balance.
fn push_tail(text: &mut String, booked: &BookedHour) -> Result<(), AllocError>
    ensures { OnOk result (string_bytes text.new ≡ string_bytes text.old ++ booked_tail booked.now) }
{
    writeln!(
        text,
        " charge {} short {} balance {}",
        booked.answer.charges.value, booked.answer.short.value, booked.answer.balance.value
    )
}

/// Appends the line of an hour that was posted, as its statement has it.
fn push_booked(text: &mut String, booked: &BookedHour) -> Result<(), AllocError>
    ensures { OnOk result (string_bytes text.new ≡ string_bytes text.old ++ booked_text booked.now) }
{
    push_head(text, booked)?;
    push_tail(text, booked)
}

/// Appends the line of a package that was set aside: its file, and the refusal.
fn push_refused(text: &mut String, name: &str, refusal: Refusal) -> Result<(), AllocError>
    ensures { OnOk result (string_bytes text.new ≡ string_bytes text.old ++ refused_in name.now (told refusal)) }
{
    writeln!(text, "{name}: {refusal}")
}

/// Appends what became of a package.
fn push_outcome(
    text: &mut String,
    name: &str,
    outcome: &Result<BookedHour, Refusal>,
) -> Result<(), AllocError>
    ensures { OnOk result (string_bytes text.new ≡ string_bytes text.old ++ outcome_text name.now outcome.now) }
{
    match outcome {
        Ok(booked) => push_booked(text, booked),
        Err(refusal) => push_refused(text, name, *refusal),
    }
}

/// The name of the file at a place; none is told where there is no name.
fn name_at(names: &[String], place: usize) -> &str
    ensures { result.now ≡ name_at (names_of names.now) place }
{
    names.get(place).map_or("", |name| name.as_str())
}

/// Appends what became of each package in its turn.
pub(crate) fn push_outcomes(
    text: &mut String,
    names: &[String],
    hours: &[Result<BookedHour, Refusal>],
) -> Result<(), AllocError>
    ensures { OnOk result (string_bytes text.new ≡ string_bytes text.old ++ lines_by (outcome_line (names_of names.now)) 0 hours.now) }
{
    for (place, outcome) in hours.iter().enumerate() {
        push_outcome(text, name_at(names, place), outcome)?;
    }
    Ok(())
}
