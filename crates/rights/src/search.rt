ghost use Rattle.std.specs.Prelude.{◌≡◌};
ghost use Rattle.std.specs.List.{list_any};
ghost use Rattle.rights.specs.Rights.{same_right, FirstRepeat};

use crate::right::is_same_right;
use rows::HoldingRow;

/// Whether one of the earlier holdings is the same right.
fn is_among(earlier: &[HoldingRow], holding: &HoldingRow) -> bool
    ensures { result ≡ list_any (λ e. same_right e holding.now) earlier.now }
{
    earlier.iter().any(|e| is_same_right(e, holding))
}

/// The first place that repeats, by a search through all earlier holdings of each.
pub(crate) fn first_searched(holdings: &[HoldingRow]) -> Option<usize>
    ensures { FirstRepeat holdings.now result }
{
    for (place, holding) in holdings.iter().enumerate() {
        if is_among(&holdings[..place], holding) {
            return Some(place);
        }
    }
    None
}
