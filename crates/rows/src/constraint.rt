ghost use Rattle.std.specs.Prelude.{pos, ◌≤ℤ◌};

use units::{Factor, Price};

/// A constraint of the hour: a shadow price of 0 to 1,000,000 and a deration factor of 0 to 10,000.
#[derive(Clone, Copy)]
pub struct Constraint {
    pub shadow: Price,
    pub deration: Factor,
    ghost shadow_low: { pos 0 ≤ℤ shadow.value },
    ghost shadow_high: { shadow.value ≤ℤ pos 1000000 },
    ghost deration_low: { pos 0 ≤ℤ deration.value },
}
