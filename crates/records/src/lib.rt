//! Records of a package, and a reader that keeps its own place among them.

#![tactic(auto)]

mod entry;
mod reader;
mod reading;

pub use entry::Entry;
pub use reader::Reader;
