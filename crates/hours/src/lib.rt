//! An hour read from its package, in tables of its own.

#![tactic(auto)]

mod blanks;
mod hour_tables;
mod reading;

pub use blanks::{NO_CONSTRAINT, NO_FACTOR, NO_HOLDING, NO_POINT};
pub use hour_tables::HourTables;
