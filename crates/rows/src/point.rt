ghost use Rattle.std.specs.Prelude.{◌≡◌, true, pos, neg_ℤ, ◌≤ℤ◌};
ghost use Rattle.rows.specs.Ranges.{resource_prices_ok};

use crate::letters::PointKind;
use units::Price;

/// A point of the hour: prices of -1,000,000 to 1,000,000; a Load Zone and a Hub have zero for the Minimum and the
/// Maximum Resource Price, and a Resource Node has the minimum at most the maximum.
#[derive(Clone, Copy)]
pub struct Point {
    pub kind: PointKind,
    pub price: Price,
    pub minimum: Price,
    pub maximum: Price,
    ghost price_low: { neg_ℤ (pos 1000000) ≤ℤ price.value },
    ghost price_high: { price.value ≤ℤ pos 1000000 },
    ghost minimum_low: { neg_ℤ (pos 1000000) ≤ℤ minimum.value },
    ghost minimum_high: { minimum.value ≤ℤ pos 1000000 },
    ghost maximum_low: { neg_ℤ (pos 1000000) ≤ℤ maximum.value },
    ghost maximum_high: { maximum.value ≤ℤ pos 1000000 },
    ghost resource: { resource_prices_ok kind minimum.value maximum.value ≡ true },
}
