use rows::{ConstraintRow, Day, HoldingRow, PointRow};

/// An hour as it lies in the caller's tables, the shift factors in a row for each point.
#[derive(Clone, Copy)]
pub(crate) struct HourTables<'a> {
    pub(crate) day: &'a Day,
    pub(crate) constraints: &'a [ConstraintRow],
    pub(crate) points: &'a [PointRow],
    pub(crate) factors: &'a [i16],
    pub(crate) holdings: &'a [HoldingRow],
}
