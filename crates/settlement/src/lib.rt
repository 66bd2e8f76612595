//! One hour settled from its package, as the first of a month of 128 owners.

#![tactic(auto)]

mod settling;
mod text;

pub use settling::settle_package;
pub use text::refused_line;

/// Room for the longest statement: 1,024 lines of at most 53 bytes, and the hour's of at most 169.
pub const LARGEST_STATEMENT: usize = 54_441;
