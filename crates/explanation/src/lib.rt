//! Why each holding of an hour is paid what it is, in text for a clerk.

#![tactic(auto)]

mod lines;

pub use lines::explain_holdings;
