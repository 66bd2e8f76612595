//! The settled examples.

#![tactic(auto)]

mod settled;

pub use settled::settled_examples;
