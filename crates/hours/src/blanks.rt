//! What a table holds before it is filled is out of range: a blank is never read as nought.
use rows::{ConstraintRow, HoldingRow, PointRow};

/// A constraint out of range.
pub const NO_CONSTRAINT: ConstraintRow = ConstraintRow {
    shadow: u32::MAX,
    deration: 0,
};

/// A point out of range.
pub const NO_POINT: PointRow = PointRow {
    letter: 0,
    price: i32::MAX,
    minimum: 0,
    maximum: 0,
};

/// A shift factor out of range.
pub const NO_FACTOR: i16 = i16::MAX;

/// A holding out of range.
pub const NO_HOLDING: HoldingRow = HoldingRow {
    owner: u16::MAX,
    letter: 0,
    source: 0,
    sink: 0,
    quantity: 0,
    block: 0,
    actual: 0,
    real_time: 0,
};
