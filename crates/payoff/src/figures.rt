ghost use Rattle.std.specs.Prelude.{pos, ◌≤ℤ◌};

use units::{Price, Quantity};

/// What an instrument means for a holding in an hour: counted quantity, target price, deration price, floor price. As the
/// payoff rules have it, the floor price is at most the target price, and the deration price is not below 0.
#[derive(Clone, Copy)]
pub struct Figures {
    pub quantity: Quantity,
    pub target: Price,
    pub deration: Price,
    pub floor: Price,
    ghost floor_under: { floor.value ≤ℤ target.value },
    ghost deration_low: { pos 0 ≤ℤ deration.value },
}
