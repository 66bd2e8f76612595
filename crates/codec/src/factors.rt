//! The shift factors of a P record: two bytes for each constraint.
ghost use Rattle.std.specs.Prelude.{◌≡◌, true, ◌&&◌, slice_index};
ghost use Rattle.std.specs.List.{fold};
ghost use Rattle.codec.specs.Bytes.{int2};
ghost use Rattle.rows.specs.Ranges.{factor_ok};
ghost use Rattle.codec.specs.Records.{every, factors_at, filled};

use rows::Sound;

/// The shift factor of two bytes.
fn factor_of(pair: &[u8; 2]) -> i16
    ensures { result ≡ int2 (slice_index pair.now 0) (slice_index pair.now 1) }
{
    i16::from_be_bytes(*pair)
}

/// Whether every pair of bytes is a shift factor in range. All are tested, even past one that is not: with no way out of
/// the loop the compiler tests several at once.
fn pairs_sound(pairs: &[[u8; 2]]) -> bool
    ensures { result ≡ fold (λ all pair. all && factor_ok (int2 (slice_index pair 0) (slice_index pair 1))) true pairs.now }
{
    pairs
        .iter()
        .fold(true, |all, pair| all & factor_of(pair).sound())
}

/// Whether every shift factor of the bytes is in range.
pub(crate) fn factors_sound(bytes: &[u8]) -> bool
    ensures { result ≡ every factor_ok (factors_at bytes.now) }
{
    let (pairs, _) = bytes.as_chunks();
    pairs_sound(pairs)
}

/// Fills the front of a table with the shift factors of the bytes; a table that is too short stays.
pub fn fill_factors(bytes: &[u8], table: &mut [i16])
    ensures { table.new ≡ filled (factors_at bytes.now) table.old }
{
    let (pairs, _) = bytes.as_chunks();
    if table.len() < pairs.len() {
        return;
    }
    // of the cells that a zip lends no proof knows what they come to, so they are counted
    for (n, pair) in pairs.iter().enumerate() {
        table[n] = factor_of(pair);
    }
}
