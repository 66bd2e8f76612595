//! Bytes written into a buffer that the caller lends.

#![tactic(auto)]

mod output;

pub use output::Output;
