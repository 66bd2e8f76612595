ghost use Rattle.std.specs.Prelude.{◌≡◌, length, drop};
ghost use Rattle.refusals.specs.Numbers.{told_by};
ghost use Rattle.codec.specs.Records.{answered};
ghost use Rattle.records.specs.Frames.{frame_of};
ghost use Rattle.format.specs.Hours.{tables_of};
ghost use Rattle.format.specs.Reading.{on_first, reads_tables};
ghost use Rattle.packages.specs.Counting.{seen_of, seen_in};

use crate::filled::Filled;
use crate::rest::test_rest;
use codec::read_day;
use format::LARGEST;
use records::Reader;
use refusals::{Cause, Refusal};

/// The tests of every record: the day row's, and then the others.
fn test_records(bytes: &[u8]) -> Result<Filled, Refusal>
    ensures { told_by seen_in result ≡ answered (λ h. seen_of (tables_of h)) (on_first (length bytes.now) (frame_of (drop 5 bytes.now))) }
{
    let mut reader = Reader::new(bytes);
    let no_day = Cause::RecordOrder.at(0);
    let first = reader.next()?.ok_or(no_day)?;
    if first.letter != b'D' {
        return Err(no_day);
    }
    let day = read_day(first.fields, 0)?;
    let seen = test_rest(reader)?;
    Ok(Filled {
        day,
        constraints: seen.constraints,
        points: seen.points,
        factors: seen.points * seen.constraints,
        holdings: seen.holdings,
    })
}

/// The tests of a package but for that of the room in the caller's tables, and nothing is kept of its rows.
pub(crate) fn test_package(bytes: &[u8]) -> Result<Filled, Refusal>
    ensures { told_by seen_in result ≡ answered seen_of (reads_tables bytes.now) }
{
    let untrue = Cause::PackageLength.at(0);
    if bytes.len() > LARGEST {
        return Err(untrue);
    }
    let (long, rest) = bytes.split_first_chunk().ok_or(untrue)?;
    let version = rest.first().ok_or(untrue)?;
    if u32::from_be_bytes(*long) as usize != bytes.len() - 4 {
        return Err(untrue);
    }
    if *version != 1 {
        return Err(Cause::Version.at(0));
    }
    test_records(bytes)
}
