ghost use Rattle.std.specs.Prelude.{◌≡◌, ◌+◌, ◌*◌, ◌≤◌, true, ◌∷◌, ◌++◌, length, take, IfOk, Ok};
ghost use Rattle.std.specs.List.{AllByRecursion};
ghost use Rattle.refusals.specs.Numbers.{told_by};
ghost use Rattle.rows.specs.Plain.{plain_day};
ghost use Rattle.codec.specs.Bytes.{be4};
ghost use Rattle.codec.specs.Records.{encode_day, answered, HoldingFits};
ghost use Rattle.records.specs.Frames.{framed};
ghost use Rattle.buffer.specs.Appends.{Appends, HasRoom};
ghost use Rattle.format.specs.Hours.{tables, hour_of, package_of};
ghost use Rattle.format.specs.Reading.{reads_tables};
ghost use Rattle.format.specs.Writing.{sizes_ok, writes, written};
ghost use Rattle.writer.specs.Laid.{tables_in};

use crate::pieces::{put_entries, put_points};
use crate::tables::HourTables;
use buffer::Output;
use codec::day_bytes;
use refusals::{Cause, Refusal};
use rows::{ConstraintRow, Day, HoldingRow, PointRow};

/// The first bytes of a package: its length, its version, and the day row's record.
fn package_head(day: &Day, long: u32) -> [u8; 20]
    ensures { result ≡ be4 long ++ (1 ∷ framed 68 (encode_day (plain_day day.now))) }
{
    let [p, q, r, s] = long.to_be_bytes();
    let [a, b, c, d, e, f, g, h, i, j, k, l] = day_bytes(day);
    [
        p, q, r, s, 1, 0, 13, b'D', a, b, c, d, e, f, g, h, i, j, k, l,
    ]
}

/// The package of an hour whose tables passed their tests, in a buffer with room for it.
fn put_package(tables: &HourTables, out: &mut Output, long: usize)
    requires sizes { sizes_ok (tables_in tables.now) ≡ true }
    requires long { long ≡ length (package_of (hour_of (tables_in tables.now))) }
    requires small { long ≤ 44340 }
    requires room { HasRoom out.old long }
    ensures wrote { Appends out.old (package_of (hour_of (tables_in tables.now))) out.new }
    ensures fits { AllByRecursion HoldingFits tables.now.holdings.now }
{
    out.put(&package_head(tables.day, long as u32 - 4));
    put_entries(tables.constraints, out);
    put_points(tables.points, tables.factors, tables.constraints.len(), out);
    put_entries(tables.holdings, out);
}

// the caller's tables lie each by itself, so each is a parameter here
/// Writes the package of an hour into the caller's buffer and answers its length, or refuses by the first test that fails,
/// and the buffer then stays.
pub fn write_package(
    day: &Day,
    constraints: &[ConstraintRow],
    points: &[PointRow],
    factors: &[i16],
    holdings: &[HoldingRow],
    out: &mut [u8],
) -> Result<usize, Refusal>
    ensures answer { told_by (λ n. n) result ≡ answered length (writes (tables (plain_day day.now) constraints.now points.now factors.now holdings.now) (length out.old)) }
    ensures buffer { out.new ≡ written (writes (tables (plain_day day.now) constraints.now points.now factors.now holdings.now) (length out.old)) out.old }
    ensures reads_back { IfOk result (λ n. reads_tables (take n out.new) ≡ Ok (tables (plain_day day.now) constraints.now points.now factors.now holdings.now)) }
{
    let tables = HourTables {
        day,
        constraints,
        points,
        factors,
        holdings,
    };
    if !tables.sizes_ok() {
        return Err(Cause::Sizes.at(0));
    }
    if let Some(place) = tables.bad_entry() {
        return Err(Cause::BadEntry.at(place));
    }
    let long = tables.package_length();
    if out.len() < long {
        return Err(Cause::TooShort.at(0));
    }
    let mut package = Output {
        buffer: out,
        len: 0,
    };
    put_package(&tables, &mut package, long);
    Ok(package.len)
}
