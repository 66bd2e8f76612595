use rows::{ConstraintRow, PointRow};

/// The hour's tables, plain: constraints, points, and the shift factors by point and then by constraint.
#[derive(Clone, Copy)]
pub struct PlainTables<'a> {
    pub constraints: &'a [ConstraintRow],
    pub points: &'a [PointRow],
    pub factors: &'a [i16],
}
