//! The tests of a record's fields: their length, and then the range of every figure and letter.
ghost use Rattle.std.specs.Prelude.{◌≡◌, ◌+◌, ◌*◌, ◌==◌};
ghost use Rattle.refusals.specs.Numbers.{told_by};
ghost use Rattle.rows.specs.Plain.{plain_day};
ghost use Rattle.codec.specs.Records.{decode_day, decode_row, decode_point, answered};

use crate::factors::factors_sound;
use crate::fields::Row;
use refusals::{Cause, Refusal};
use rows::{Day, DayRow, FromRow, PointRow, Sound};

/// The hour of a D record's fields, or refusal 3 or 6 at the record.
pub fn read_day(fields: &[u8], place: usize) -> Result<Day, Refusal>
    ensures { told_by plain_day result ≡ decode_day place fields.now }
{
    let row = DayRow::of(fields).ok_or(Cause::RecordLength.at(place))?;
    Day::from_row(&row, place)
}

/// The row of a record's fields, or refusal 3 or 6 at the record.
pub fn read_row<R: Row + Sound>(fields: &[u8], place: usize) -> Result<R, Refusal>
    ensures { told_by (λ x. x) result ≡ decode_row R.is_len R.ok R.row_at place fields.now }
{
    let row = R::of(fields).ok_or(Cause::RecordLength.at(place))?;
    row.sound()
        .then_some(row)
        .ok_or(Cause::OutOfRange.at(place))
}

/// Whether a P record's fields are so long, in an hour of so many constraints.
fn point_sized(len: usize, constraints: usize) -> bool
    ensures { result ≡ (len == 13 + 2 * constraints) }
{
    // the length is divided, since twice so many constraints may be too large
    len >= 13 && (len - 13) % 2 == 0 && (len - 13) / 2 == constraints
}

/// The point of a P record's fields in an hour of so many constraints, or refusal 3 or 6 at the record.
pub fn read_point(fields: &[u8], constraints: usize, place: usize) -> Result<PointRow, Refusal>
    ensures { told_by (λ x. x) result ≡ answered (λ x. x.point) (decode_point place constraints fields.now) }
{
    if !point_sized(fields.len(), constraints) {
        return Err(Cause::RecordLength.at(place));
    }
    let row = read_row(fields, place)?;
    if !factors_sound(&fields[13..]) {
        return Err(Cause::OutOfRange.at(place));
    }
    Ok(row)
}
