//! Writes the package of an hour into the caller's buffer.

#![tactic(auto)]

mod encoded;
mod pieces;
mod sizes;
mod tables;
mod writing;

pub use writing::write_package;
