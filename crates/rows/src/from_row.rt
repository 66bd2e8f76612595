ghost use Rattle.std.specs.Prelude.{◌≡◌, Bool, if◌then◌else◌, Ok, Err, Some, None};
ghost use Rattle.std.specs.Option.{option_map};
ghost use Rattle.refusals.specs.Numbers.{told_by, refused_at};

use refusals::{Cause, Refusal};

/// A typed row: what a plain row is made into once each of its figures and letters is in range.
pub trait FromRow: Sized {
    type Row: Copy;

    /// The row as it lies in a table.
    ghost plain: { Self → Self.Row };

    /// Whether each figure and letter of a plain row is in range.
    ghost ok: { Self.Row → Bool };

    /// The typed row of a plain one in range, and none of another.
    fn typed(row: &Self::Row) -> Option<Self>
        ensures { option_map plain result ≡ (if ok row.now then Some row.now else None) };

    /// The typed row of a plain one, or refusal 6 at the row's place.
    fn from_row(row: &Self::Row, place: usize) -> Result<Self, Refusal>
        ensures { told_by plain result ≡ (if ok row.now then Ok row.now else Err (refused_at 6 place)) }
    {
        Self::typed(row).ok_or(Cause::OutOfRange.at(place))
    }

    /// A typed row of figures that stand in no table, or refusal 6 at place 0.
    fn new(row: Self::Row) -> Result<Self, Refusal>
        ensures { told_by plain result ≡ (if ok row then Ok row else Err (refused_at 6 0)) }
    {
        Self::from_row(&row, 0)
    }
}
