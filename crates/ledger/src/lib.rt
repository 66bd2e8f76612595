//! The lines that a month is kept on, and the books that its calls are held to.

#![tactic(auto)]

mod line_shares;
mod lines;
mod tests;

pub use lines::{CLEAR_HOUR, CLEAR_ROLL, Due, HourAnswer, HourLine, LoadLine, NOTHING, RollLine};
pub use tests::{is_within, positive_cents};
