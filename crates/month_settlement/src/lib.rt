//! A month settled from its packages: every hour posted or set aside, then refunded and closed.

#![tactic(auto)]

mod booking;
mod closing;
mod month_error;
mod outcomes;
mod posting_all;
mod progress;
mod settling;

pub use month_error::MonthError;
pub use outcomes::{BookedHour, SettledMonth};
pub use progress::Progress;
pub use settling::settle_month;
