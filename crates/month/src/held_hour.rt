ghost use Rattle.std.specs.Prelude.{◌≡◌, ℕ, ◌<◌, true, length, slice_index_or};
ghost use Rattle.rows.specs.Ranges.{holding_ok};
ghost use Rattle.rows.specs.Week.{block_at};
ghost use Rattle.rights.specs.Rights.{no_holding};

use payoff::TestedTables;
use rows::{Block, Day, HoldingRow};

/// An hour to be priced: its tables and every plain entry have passed their tests.
#[derive(Drop)]
pub(crate) struct HeldHour<'a, I> {
    pub(crate) instrument: &'a I,
    pub(crate) day: &'a Day,
    pub(crate) tables: &'a TestedTables<'a>,
    pub(crate) holdings: &'a [HoldingRow],
    /// How many owners the roll has.
    pub(crate) owners: usize,
    /// The day's, found once for the hour and not again for each holding.
    pub(crate) block: Block,
    ghost in_block: { block ≡ block_at day.now.weekday day.now.ending },
    ghost sound: { (i : ℕ) → i < length holdings.now → holding_ok (slice_index_or holdings.now i no_holding) ≡ true },
}
