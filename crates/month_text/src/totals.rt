ghost use Rattle.std.specs.Prelude.{◌≡◌, ◌++◌, string_bytes, OnOk};
ghost use Rattle.month.specs.Months.{of_told};
ghost use Rattle.month_text.specs.Totals.{earned_text, repaid_text, in_text, out_text, month_totals};

use month::ClosedFigures;
use std::alloc::AllocError;

/// Appends how many hours were posted, and their rents, credits and charges.
fn push_earned(text: &mut String, m: &ClosedFigures) -> Result<(), AllocError>
    ensures { OnOk result (string_bytes text.new ≡ string_bytes text.old ++ earned_text (of_told m.now)) }
{
    write!(
        text,
        "month hours {} rent {} credit {} charge {}",
        m.hours, m.rents, m.credits, m.charges
    )
}

/// Appends what was charged for shortfalls, refunded, and paid to loads.
fn push_repaid(text: &mut String, m: &ClosedFigures) -> Result<(), AllocError>
    ensures { OnOk result (string_bytes text.new ≡ string_bytes text.old ++ repaid_text (of_told m.now)) }
{
    writeln!(
        text,
        " shortfall charge {} refund {} load payment {}",
        m.shortfall_charges, m.refunds, m.load_payments
    )
}

/// Appends the money that came in: rents, charges and shortfall charges.
fn push_in(text: &mut String, m: &ClosedFigures) -> Result<(), AllocError>
    ensures { OnOk result (string_bytes text.new ≡ string_bytes text.old ++ in_text (of_told m.now)) }
{
    let sum = m.rents as u128 + m.charges as u128 + m.shortfall_charges as u128;
    writeln!(
        text,
        "in rents {} + charges {} + shortfall charges {} = {sum}",
        m.rents, m.charges, m.shortfall_charges
    )
}

/// Appends the money that went out: credits, refunds and load payments; a closed month has no balance.
fn push_out(text: &mut String, m: &ClosedFigures) -> Result<(), AllocError>
    ensures { OnOk result (string_bytes text.new ≡ string_bytes text.old ++ out_text (of_told m.now)) }
{
    let sum = m.credits as u128 + m.refunds as u128 + m.load_payments as u128;
    writeln!(
        text,
        "out credits {} + refunds {} + load payments {} = {sum}",
        m.credits, m.refunds, m.load_payments
    )
}

/// Appends the month's totals, and both sides of its money equation.
pub(crate) fn push_totals(text: &mut String, m: &ClosedFigures) -> Result<(), AllocError>
    ensures { OnOk result (string_bytes text.new ≡ string_bytes text.old ++ month_totals (of_told m.now)) }
{
    push_earned(text, m)?;
    push_repaid(text, m)?;
    push_in(text, m)?;
    push_out(text, m)
}
