//! How long each line will be, which is known before any is written.
ghost use Rattle.std.specs.Prelude.{◌≡◌, ◌*◌, ◌≤◌, true, length};
ghost use Rattle.statement.specs.Lines.{holding_line, holding_lines, hour_line_of, sizes_ok};

use crate::figures::HourFigures;
use crate::numbers::{decimal_len, signed_len};
use rows::HoldingRow;

/// The bytes of a holding's line.
pub(crate) fn holding_len(i: usize, owner: u16, amount: &i64) -> usize
    ensures value { result ≡ length (holding_line i owner amount.now) }
    ensures bound { result ≤ 85 }
{
    24 + decimal_len(i as u64) + decimal_len(owner as u64) + signed_len(amount)
}

/// The bytes of the hour's line.
pub(crate) fn hour_len(hour: u16, figures: &HourFigures) -> usize
    ensures value { result ≡ length (hour_line_of hour figures.now) }
    ensures bound { result ≤ 169 }
{
    let money = signed_len(&figures.rent)
        + signed_len(&figures.credits)
        + signed_len(&figures.charges)
        + signed_len(&figures.shortfall)
        + signed_len(&figures.balance);
    44 + decimal_len(hour as u64) + money
}

/// The bytes of all the holdings' lines.
pub(crate) fn lines_len(holdings: &[HoldingRow], amounts: &[i64]) -> usize
    requires { sizes_ok (length holdings.now) (length amounts.now) ≡ true }
    ensures value { result ≡ length (holding_lines 0 holdings.now amounts.now) }
    ensures bound { result ≤ 87040 }
{
    // of what a chain gives no range is known, so the sum is a loop's
    let mut total = 0;
    for (i, (holding, amount)) in holdings.iter().zip(amounts).enumerate() {
        total += holding_len(i, holding.owner, amount);
    }
    total
}
