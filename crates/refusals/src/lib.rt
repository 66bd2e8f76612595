//! What a call answers in place of a result: a refusal with its layer, its number and its place.

#![tactic(auto)]

mod refusal;
mod texts;

pub use refusal::{Cause, Layer, Refusal};
