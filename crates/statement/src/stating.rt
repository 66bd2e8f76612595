ghost use Rattle.std.specs.Prelude.{◌≡◌, ◌+◌, ◌*◌, ◌<◌, ◌≤◌, true, false, length};
ghost use Rattle.refusals.specs.Numbers.{told_by};
ghost use Rattle.statement.specs.Lines.{holding_lines, sizes_ok, stated, length_of, written};
ghost use Rattle.statement.specs.Room.{Room};

use crate::figures::HourFigures;
use crate::lengths::{hour_len, lines_len};
use crate::lines::{put_hour, put_lines};
use buffer::Output;
use format::MOST_HOLDINGS;
use refusals::{Cause, Refusal};
use rows::{Day, HoldingRow};

/// No line of a holding is longer: a place of four digits, an owner of five, and an amount of twenty bytes.
const LONGEST_LINE: usize = 53;

/// Whether there are no more holdings than an hour has, and an amount for each.
// the caller lends holdings and amounts each by itself: what holds of both is asked where both are taken
fn sizes_ok(holdings: usize, amounts: usize) -> bool
    ensures { result ≡ sizes_ok holdings amounts }
{
    holdings <= MOST_HOLDINGS && holdings <= amounts
}

/// Whether there is room for the holdings' lines and the hour's after them. The lines are counted only where the
/// longest would have no room, since that takes as long as writing them.
fn has_room(room: usize, holdings: &[HoldingRow], amounts: &[i64], hour_line: usize) -> bool
    requires sizes { sizes_ok (length holdings.now) (length amounts.now) ≡ true }
    requires hour { hour_line ≤ 169 }
    ensures fits { result ≡ true → Room room (53 * length holdings.now + hour_line) (length (holding_lines 0 holdings.now amounts.now) + hour_line) }
    ensures short { result ≡ false → room < length (holding_lines 0 holdings.now amounts.now) + hour_line }
{
    if LONGEST_LINE * holdings.len() + hour_line <= room {
        return true;
    }
    lines_len(holdings, amounts) + hour_line <= room
}

/// Writes the statement of an hour into the caller's buffer and answers its length, or refuses by the first test that
/// fails, and the buffer then stays.
pub fn write_statement(
    day: &Day,
    holdings: &[HoldingRow],
    amounts: &[i64],
    figures: &HourFigures,
    out: &mut [u8],
) -> Result<usize, Refusal>
    ensures answer { told_by (λ n. n) result ≡ length_of (stated day.now.hour holdings.now amounts.now figures.now (length out.old)) }
    ensures buffer { out.new ≡ written (stated day.now.hour holdings.now amounts.now figures.now (length out.old)) out.old }
{
    if !sizes_ok(holdings.len(), amounts.len()) {
        return Err(Cause::Sizes.at(0));
    }
    let hour_line = hour_len(day.hour, figures);
    if !has_room(out.len(), holdings, amounts, hour_line) {
        return Err(Cause::TooShort.at(0));
    }
    let mut text = Output {
        buffer: out,
        len: 0,
    };
    put_lines(&mut text, holdings, amounts);
    put_hour(&mut text, day.hour, figures);
    Ok(text.len)
}
