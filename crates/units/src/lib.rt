//! Units of the settlement: price, quantity, factor and money are each a struct round one number.
//! Only a price times a quantity makes money.

#![tactic(auto)]

mod amounts;
mod numbers;
mod rounding;

pub use numbers::{Cents, Factor, Price, Quantity, Tenths};
pub use rounding::{deration_cents, whole_cents};
