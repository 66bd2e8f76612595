//! The fields of a record as bytes.
ghost use Rattle.std.specs.Prelude.{◌≡◌, ◌^◌, ◌<◌};
ghost use Rattle.rows.specs.Plain.{plain_day};
ghost use Rattle.codec.specs.Bytes.{be2, twos2};
ghost use Rattle.codec.specs.Records.{encode_day, encode_constraint, encode_point, encode_holding, HoldingFits};

use rows::{ConstraintRow, Day, HoldingRow, PointRow};

// each kind has a length of its own, which a trait cannot give its array, so each has a function

/// The fields of a D record.
pub fn day_bytes(day: &Day) -> [u8; 12]
    ensures { result ≡ encode_day (plain_day day.now) }
{
    let [h, i] = day.hour.to_be_bytes();
    let rent = day.rent.value as u64;
    let [a, b, c, d, e, f, g, l] = rent.to_be_bytes();
    [h, i, day.weekday, day.ending, a, b, c, d, e, f, g, l]
}

/// The fields of a C record.
pub fn constraint_bytes(row: &ConstraintRow) -> [u8; 6]
    ensures { result ≡ encode_constraint row.now }
{
    let [a, b, c, d] = row.shadow.to_be_bytes();
    let [e, f] = row.deration.to_be_bytes();
    [a, b, c, d, e, f]
}

/// The fields of a P record but for its shift factors.
pub fn point_bytes(row: &PointRow) -> [u8; 13]
    ensures { result ≡ encode_point row.now }
{
    let [a, b, c, d] = row.price.to_be_bytes();
    let [e, f, g, h] = row.minimum.to_be_bytes();
    let [i, j, k, l] = row.maximum.to_be_bytes();
    [row.letter, a, b, c, d, e, f, g, h, i, j, k, l]
}

/// A shift factor of a P record.
pub fn factor_bytes(factor: i16) -> [u8; 2]
    ensures { result ≡ twos2 factor }
{
    factor.to_be_bytes()
}

/// A figure of 16 bits, which its type alone holds in range.
fn two_bytes(figure: u16) -> [u8; 2]
    ensures value { result ≡ be2 figure }
    ensures fits { figure < 2 ^ 16 }
{
    figure.to_be_bytes()
}

/// The fields of an H record.
pub fn holding_bytes(row: &HoldingRow) -> [u8; 20]
    ensures value { result ≡ encode_holding row.now }
    ensures fits { HoldingFits row.now }
{
    let [a, b] = two_bytes(row.owner);
    let [c, d] = two_bytes(row.source);
    let [e, f] = two_bytes(row.sink);
    let [g, h, i, j] = row.quantity.to_be_bytes();
    let [k, l, m, n] = row.actual.to_be_bytes();
    let [o, p, q, s] = row.real_time.to_be_bytes();
    [
        a, b, row.letter, c, d, e, f, g, h, i, j, row.block, k, l, m, n, o, p, q, s,
    ]
}
