//! Entries of one table, one after the other.
ghost use Rattle.std.specs.Prelude.{◌≡◌, ◌+◌, ◌*◌, ◌≤◌, ◌∷◌, ◌++◌, length};
ghost use Rattle.std.specs.List.{AllByRecursion, flat_map};
ghost use Rattle.codec.specs.Bytes.{be2};
ghost use Rattle.codec.specs.Records.{encode_placed, encode_point};
ghost use Rattle.buffer.specs.Appends.{Appends, HasRoom};
ghost use Rattle.format.specs.Hours.{records_of, placed};

use crate::encoded::Encoded;
use buffer::Output;
use codec::point_bytes;
use rows::PointRow;

/// The bytes of each entry.
pub(crate) fn put_entries<R: Encoded>(rows: &[R], out: &mut Output)
    requires { HasRoom out.old (length (flat_map R.bytes rows.now)) }
    ensures wrote { Appends out.old (flat_map R.bytes rows.now) out.new }
    ensures fits { AllByRecursion R.fits rows.now }
{
    for row in rows {
        row.put_bytes(out);
    }
}

/// The first bytes of a P record: its length, its letter and its row.
fn point_head(row: &PointRow, columns: usize) -> [u8; 16]
    requires { columns ≤ 32 }
    ensures { result ≡ be2 (14 + 2 * columns) ++ (80 ∷ encode_point row.now) }
{
    let [h, l] = (14 + 2 * columns as u16).to_be_bytes();
    let [a, b, c, d, e, f, g, i, j, k, m, n, o] = point_bytes(row);
    [h, l, b'P', a, b, c, d, e, f, g, i, j, k, m, n, o]
}

/// The records of points, each with a row of so many shift factors.
pub(crate) fn put_points(points: &[PointRow], factors: &[i16], columns: usize, out: &mut Output)
    requires few { columns ≤ 32 }
    requires rows { length factors.now ≡ length points.now * columns }
    requires room { HasRoom out.old (length (records_of 80 encode_placed (placed columns points.now factors.now))) }
    ensures { Appends out.old (records_of 80 encode_placed (placed columns points.now factors.now)) out.new }
{
    // a chunk of no columns is none, so the rows are counted
    for (i, point) in points.iter().enumerate() {
        let first = i * columns;
        out.put(&point_head(point, columns));
        put_entries(&factors[first..first + columns], out);
    }
}
