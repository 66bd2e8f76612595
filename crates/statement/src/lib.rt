//! The statement of an hour, in lines of text.

#![tactic(auto)]

mod digits;
mod figures;
mod lengths;
mod lines;
mod numbers;
mod stating;
mod words;

pub use figures::HourFigures;
pub use stating::write_statement;
