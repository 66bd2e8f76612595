//! Rows of an hour: plain as they lie in tables, and typed with every figure in its range; their letters; and the
//! table of the week's hours.

#![tactic(auto)]

mod constraint;
mod day;
mod from_row;
mod holding;
mod letters;
mod made;
mod made_days;
mod made_holdings;
mod plain;
mod point;
mod quantity;
mod sound;
mod spelling;
mod week;

pub use constraint::Constraint;
pub use day::Day;
pub use from_row::FromRow;
pub use holding::Holding;
pub use letters::{Block, InstrumentKind, PointKind, UnknownLetter};
pub use plain::{ConstraintRow, DayRow, HoldingRow, PointRow};
pub use point::Point;
pub use quantity::HeldQuantity;
pub use sound::{Sound, first_bad};
pub use week::block_at;
