//! Lines of money in text: one line for each entry of a table.

#![tactic(auto)]

mod lines;
mod listing;

pub use listing::{TextLine, push_lines};
