//! The row of a record's fields, where these have the length of its kind.
ghost use Rattle.std.specs.Prelude.{◌≡◌, ℕ, ◌+◌, ◌≤◌, ◌==◌, Bool, List, length, take, drop, nat_le};
ghost use Rattle.codec.specs.Records.{row_of, day_at, constraint_at, point_at, holding_at};

use rows::{ConstraintRow, DayRow, HoldingRow, PointRow};

/// A row that a record's fields spell.
pub trait Row: Copy {
    ghost is_len: { ℕ → Bool };

    ghost row_at: { List ℕ → Self };

    /// The row of a record's fields, where their length is one of its kind.
    fn of(fields: &[u8]) -> Option<Self>
        ensures { result ≡ row_of is_len row_at fields.now };
}

/// The bytes of a number at a place.
fn bytes_at<const N: usize>(bytes: &[u8], i: usize) -> [u8; N]
    requires { i + N ≤ length bytes.now }
    ensures { result ≡ take N (drop i bytes.now) }
{
    bytes[i..i + N].try_into().unwrap()
}

/// The day row of the 12 bytes of a D record.
impl Row for DayRow {
    ghost is_len = { λ n. n == 12 };

    ghost row_at = { day_at };

    fn of(fields: &[u8]) -> Option<DayRow> {
        if fields.len() != 12 {
            return None;
        }
        Some(DayRow {
            hour: u16::from_be_bytes(bytes_at(fields, 0)),
            weekday: fields[2],
            ending: fields[3],
            rent: u64::from_be_bytes(bytes_at(fields, 4)),
        })
    }
}

/// The constraint of the 6 bytes of a C record.
impl Row for ConstraintRow {
    ghost is_len = { λ n. n == 6 };

    ghost row_at = { constraint_at };

    fn of(fields: &[u8]) -> Option<ConstraintRow> {
        if fields.len() != 6 {
            return None;
        }
        Some(ConstraintRow {
            shadow: u32::from_be_bytes(bytes_at(fields, 0)),
            deration: u16::from_be_bytes(bytes_at(fields, 4)),
        })
    }
}

/// The point of the first 13 bytes of a P record, which has its shift factors after them.
impl Row for PointRow {
    ghost is_len = { nat_le 13 };

    ghost row_at = { point_at };

    fn of(fields: &[u8]) -> Option<PointRow> {
        if fields.len() < 13 {
            return None;
        }
        Some(PointRow {
            letter: fields[0],
            price: i32::from_be_bytes(bytes_at(fields, 1)),
            minimum: i32::from_be_bytes(bytes_at(fields, 5)),
            maximum: i32::from_be_bytes(bytes_at(fields, 9)),
        })
    }
}

/// The holding of the 20 bytes of an H record.
impl Row for HoldingRow {
    ghost is_len = { λ n. n == 20 };

    ghost row_at = { holding_at };

    fn of(fields: &[u8]) -> Option<HoldingRow> {
        if fields.len() != 20 {
            return None;
        }
        Some(HoldingRow {
            owner: u16::from_be_bytes(bytes_at(fields, 0)),
            letter: fields[2],
            source: u16::from_be_bytes(bytes_at(fields, 3)),
            sink: u16::from_be_bytes(bytes_at(fields, 5)),
            quantity: u32::from_be_bytes(bytes_at(fields, 7)),
            block: fields[11],
            actual: u32::from_be_bytes(bytes_at(fields, 12)),
            real_time: u32::from_be_bytes(bytes_at(fields, 16)),
        })
    }
}
