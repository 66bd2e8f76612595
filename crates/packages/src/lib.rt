//! Reads a package into the caller's tables.

#![tactic(auto)]

mod counts;
mod filled;
mod filling;
mod lent;
mod reading;
mod rest;
mod testing;

pub use filled::Filled;
pub use reading::read_package;
