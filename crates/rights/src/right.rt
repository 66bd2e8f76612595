ghost use Rattle.std.specs.Prelude.{◌≡◌, ◌<◌};
ghost use Rattle.rights.specs.Rights.{same_right};
ghost use Rattle.rights.specs.Chains.{bucket_of};

use rows::HoldingRow;

/// Whose right a holding is, of which instrument, and between which points. Holdings alike in these are the same right.
#[derive(Clone, Copy, PartialEq, Eq)]
struct Right {
    owner: u16,
    letter: u8,
    source: u16,
    sink: u16,
}

impl Right {
    /// The right that is held.
    fn of(row: &HoldingRow) -> Right
        ensures owner { result.owner ≡ row.now.owner }
        ensures letter { result.letter ≡ row.now.letter }
        ensures source { result.source ≡ row.now.source }
        ensures sink { result.sink ≡ row.now.sink }
    {
        Right {
            owner: row.owner,
            letter: row.letter,
            source: row.source,
            sink: row.sink,
        }
    }
}

/// Whether two holdings are the same right.
pub(crate) fn is_same_right(e: &HoldingRow, h: &HoldingRow) -> bool
    ensures { result ≡ same_right e.now h.now }
{
    Right::of(e) == Right::of(h)
}

/// 2^64 over the golden ratio: rights that lie close together fall into buckets far apart.
const SPREAD: u64 = 0x9E37_79B9_7F4A_7C15;

/// The bucket of a holding's right: the same right falls into the same bucket.
pub(crate) fn bucket_of(h: &HoldingRow) -> usize
    ensures value { result ≡ bucket_of h.now }
    ensures small { result < 1024 }
{
    let owned = u64::from(h.owner) * 256 + u64::from(h.letter);
    let right = (owned * 65_536 + u64::from(h.source)) * 65_536 + u64::from(h.sink);
    (right.wrapping_mul(SPREAD) >> 54) as usize
}
