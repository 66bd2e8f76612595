//! The records of a package: the fields of each kind read from bytes and written as bytes.

#![tactic(auto)]

mod factors;
mod fields;
mod readings;
mod writings;

pub use factors::fill_factors;
pub use fields::Row;
pub use readings::{read_day, read_point, read_row};
pub use writings::{constraint_bytes, day_bytes, factor_bytes, holding_bytes, point_bytes};
