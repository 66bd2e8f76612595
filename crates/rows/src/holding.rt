ghost use Rattle.std.specs.Prelude.{◌≡◌, ◌≤◌, true};
ghost use Rattle.rows.specs.Ranges.{refund_figures_ok};

use crate::letters::{Block, InstrumentKind};
use crate::quantity::HeldQuantity;
use units::Quantity;

/// A holding of the hour: an actual output of 0 to 800,000 and a Real-Time quantity of 0 to 100,000, both 0 without
/// Refund.
#[derive(Clone, Copy)]
pub struct Holding {
    pub owner: u16,
    pub instrument: InstrumentKind,
    pub source: u16,
    pub sink: u16,
    pub quantity: HeldQuantity,
    pub block: Block,
    pub actual: Quantity,
    pub real_time: Quantity,
    ghost traded: { real_time.value ≤ 100000 },
    ghost refund: { refund_figures_ok instrument actual.value real_time.value ≡ true },
}
