//! What the back office is shown of a settled month, in text.

#![tactic(auto)]

mod hour_lines;
mod text;
mod totals;

pub use text::month_text;
