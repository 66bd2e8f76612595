//! The lines themselves.
ghost use Rattle.std.specs.Prelude.{◌≡◌, ◌+◌, ◌*◌, ◌<◌, ◌≤◌, true, length};
ghost use Rattle.buffer.specs.Appends.{Appends, HasRoom};
ghost use Rattle.statement.specs.Lines.{holding_line, holding_lines, hour_line_of, sizes_ok};
ghost use Rattle.statement.specs.Room.{Room};

use crate::figures::HourFigures;
use crate::numbers::{put_count, put_told};
use crate::words::put_word;
use buffer::Output;
use rows::HoldingRow;

/// A holding's line.
fn put_holding(out: &mut Output, i: usize, owner: u16, amount: i64)
    requires number { i < 1024 }
    requires room { Room (length out.old.buffer.now) (out.old.len + 53) (out.old.len + length (holding_line i owner amount)) }
    ensures bound { out.new.len ≤ out.old.len + 53 }
    ensures wrote { Appends out.old (holding_line i owner amount) out.new }
{
    put_count(out, b"holding ", i as u32);
    put_count(out, b" owner ", owner as u32);
    put_told(out, b" amount ", &amount);
    put_word(out, b"\n");
}

/// The hour's line.
pub(crate) fn put_hour(out: &mut Output, hour: u16, figures: &HourFigures)
    requires { HasRoom out.old (length (hour_line_of hour figures.now)) }
    ensures { Appends out.old (hour_line_of hour figures.now) out.new }
{
    put_count(out, b"hour ", hour as u32);
    put_told(out, b" rent ", &figures.rent);
    put_told(out, b" credit ", &figures.credits);
    put_told(out, b" charge ", &figures.charges);
    put_told(out, b" short ", &figures.shortfall);
    put_told(out, b" balance ", &figures.balance);
    put_word(out, b"\n");
}

/// The line of each holding with its amount.
pub(crate) fn put_lines(out: &mut Output, holdings: &[HoldingRow], amounts: &[i64])
    requires sizes { sizes_ok (length holdings.now) (length amounts.now) ≡ true }
    requires room { Room (length out.old.buffer.now) (out.old.len + 53 * length holdings.now) (out.old.len + length (holding_lines 0 holdings.now amounts.now)) }
    ensures bound { out.new.len ≤ out.old.len + 53 * length holdings.now }
    ensures wrote { Appends out.old (holding_lines 0 holdings.now amounts.now) out.new }
{
    for (i, (holding, amount)) in holdings.iter().zip(amounts).enumerate() {
        put_holding(out, i, holding.owner, *amount);
    }
}
