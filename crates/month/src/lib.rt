//! A month of hours, from open to close: the calls, and what every run of them keeps.

#![tactic(auto)]

mod admit;
mod asked_hour;
mod books;
mod close;
mod closed;
mod dues;
mod handed_back;
mod held_hour;
mod hour;
mod hour_dues;
mod hour_sums;
mod loads;
mod opening;
mod post;
mod refund;
mod roll;
mod sheet;
mod state;
mod sums;
mod told;

pub use handed_back::HandedBack;
pub use opening::open;
pub use state::{ClosedMonth, OpenMonth, RefundedMonth};
pub use told::ClosedFigures;
