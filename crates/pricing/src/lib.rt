//! The pricing call: every figure of one holding, under any instrument.

#![tactic(auto)]

mod amounts;
mod calls;
mod pricing;

pub use amounts::amount_in;
pub use calls::{price, price_in};
pub use pricing::Pricing;
