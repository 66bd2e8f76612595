ghost use Rattle.std.specs.Prelude.{◌≡◌, ◌||◌, pos, neg_ℤ, ◌≤ℤ◌, if◌then◌else◌};
ghost use Rattle.rows.specs.Plain.{plain_point};
ghost use Rattle.rows.specs.declared.letters.PointKind.TheVariants.{ResourceNode};
ghost use Rattle.payoff.specs.Prices.{spread, hedge_price_of, floor_price_of, refundable, is_kind};
ghost use Rattle.payoff.specs.View.{plain_pair};

use crate::pair::Pair;
use rows::{Point, PointKind};
use units::Price;

/// What an end of the pair counts for: its Resource Price where it is a Resource Node, else its price.
fn counted_price(point: &Point, resource_price: Price) -> i32
    requires at_least { neg_ℤ (pos 1000000) ≤ℤ resource_price.value }
    requires at_most { resource_price.value ≤ℤ pos 1000000 }
    ensures value { result ≡ (if is_kind ResourceNode (plain_point point.now) then resource_price.value else point.now.price.value) }
    ensures low { neg_ℤ (pos 1000000) ≤ℤ result }
    ensures high { result ≤ℤ pos 1000000 }
{
    match point.kind {
        PointKind::ResourceNode => resource_price.value,
        PointKind::LoadZone | PointKind::Hub => point.price.value,
    }
}

impl Pair {
    /// The sink's price less the source's.
    pub fn spread(&self) -> Price
        ensures { result.value ≡ spread (plain_pair self.now) }
    {
        Price {
            value: self.sink.price.value - self.source.price.value,
        }
    }

    /// The hedge price: what the sink is worth at most, a Resource Node its Maximum Resource Price, less what the source
    /// costs at least, a Resource Node its Minimum Resource Price, or 0.
    pub fn hedge_price(&self) -> Price
        ensures { result.value ≡ hedge_price_of (plain_pair self.now) }
    {
        let most = counted_price(&self.sink, self.sink.maximum);
        let least = counted_price(&self.source, self.source.minimum);
        Price {
            value: (most - least).max(0),
        }
    }

    /// Whether either end is a Resource Node.
    fn has_resource_node(&self) -> bool
        ensures { result ≡ (is_kind ResourceNode (plain_pair self.now).source || is_kind ResourceNode (plain_pair self.now).sink) }
    {
        matches!(
            (self.source.kind, self.sink.kind),
            (PointKind::ResourceNode, _) | (_, PointKind::ResourceNode)
        )
    }

    /// The floor price at a target price.
    pub fn floor_price(&self, target: Price) -> Price
        ensures { result.value ≡ floor_price_of (plain_pair self.now) target.value }
    {
        if target.value <= 0 || !self.has_resource_node() {
            return target;
        }
        target.min(self.hedge_price())
    }

    /// Whether Refund is for this pair: from a Resource Node to a Load Zone or a Hub.
    pub fn refundable(&self) -> bool
        ensures { result ≡ refundable (plain_pair self.now) }
    {
        matches!(
            (self.source.kind, self.sink.kind),
            (
                PointKind::ResourceNode,
                PointKind::LoadZone | PointKind::Hub
            )
        )
    }
}
