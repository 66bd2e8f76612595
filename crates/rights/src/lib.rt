//! Holdings that are the same right, found by a table of chains.

#![tactic(auto)]

mod chain;
mod right;
mod search;

ghost use Rattle.rights.specs.Rights.{FirstRepeat};

use rows::HoldingRow;

/// The first place whose holding is the same right as an earlier one. As many holdings as an hour may have go into a
/// table of chains; a longer list, which no hour has, is searched plainly.
pub fn first_repeat(holdings: &[HoldingRow]) -> Option<usize>
    ensures { FirstRepeat holdings.now result }
{
    if holdings.len() > 1024 {
        search::first_searched(holdings)
    } else {
        chain::first_chained(holdings)
    }
}
