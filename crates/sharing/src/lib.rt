//! Sharing a sum over lines by weight: one text for every kind of line.

#![tactic(auto)]

mod line;
mod pot;

ghost use Rattle.std.specs.Prelude.{◌≡◌, ℕ, ◌^◌, ◌<◌, ◌≤◌, length, pos, ◌+ℤ◌, ◌<ℤ◌, sum_by, slice_index_or};
ghost use Rattle.std.specs.List.{AllByRecursion};
ghost use Rattle.sharing.specs.Shares.{limit, share_of, weights_of, Fair};

pub use line::Line;
use pot::Pot;

/// Shares a sum over the lines by weight, and adds each line's share to what it has had.
///
/// This is no call of the settlement but a part of several: its callers have tested the sum, the total and the lines,
/// so it is the one public function that asks something of them.
pub fn share<L: Line>(lines: &mut [L], sum: u64, total: u64)
    requires small { (sum ≤ limit) × (total ≤ limit) }
    requires zero { total ≡ 0 → sum ≡ 0 }
    requires weighed { sum_by L.weight lines.old ≡ total }
    requires room { AllByRecursion (λ x. (L.had x +ℤ pos sum) <ℤ pos (2 ^ 63)) lines.old }
    ensures shared { (none : L) (i : ℕ) → i < length lines.old → slice_index_or lines.new i none ≡ L.given (slice_index_or lines.old i none) (share_of sum total (weights_of L.weight lines.old none) i) }
    ensures kept { length lines.new ≡ length lines.old }
    ensures fair { (none : L) → Fair sum total (weights_of L.weight lines.old none) (length lines.old) }
{
    let pot = Pot { sum, total };
    // what a line gets hangs on the lines before it, so both sums run along
    let mut seen: u64 = 0;
    let mut done: u64 = 0;
    for line in lines.iter_mut() {
        seen += line.weighs();
        done = pot.give(line, seen, done);
    }
}
