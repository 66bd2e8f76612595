ghost use Rattle.std.specs.Prelude.{◌≡◌, true, if◌then◌else◌, Ok, Err};
ghost use Rattle.refusals.specs.Numbers.{told_by, refused_at};
ghost use Rattle.rows.specs.Ranges.{quantity_ok, refund_figures_ok, holding_ok};
ghost use Rattle.rows.specs.Plain.{plain_holding};

use crate::from_row::FromRow;
use crate::holding::Holding;
use crate::letters::{Block, InstrumentKind};
use crate::plain::HoldingRow;
use crate::quantity::HeldQuantity;
use refusals::{Cause, Refusal};
use units::Quantity;

fn quantity_ok(value: u32) -> bool
    ensures { result ≡ quantity_ok value }
{
    (1..=100_000).contains(&value)
}

impl FromRow for HeldQuantity {
    type Row = u32;

    ghost plain = { λ q. q.value };

    ghost ok = { quantity_ok };

    fn typed(row: &u32) -> Option<HeldQuantity> {
        if !quantity_ok(*row) {
            return None;
        }
        Some(HeldQuantity { value: *row })
    }
}

impl HeldQuantity {
    /// The same quantity, as a price is multiplied by it.
    pub fn quantity(self) -> Quantity
        ensures { result.value ≡ self.value }
    {
        Quantity { value: self.value }
    }
}

fn refund_figures_ok(instrument: InstrumentKind, actual: u32, real_time: u32) -> bool
    ensures { result ≡ refund_figures_ok instrument actual real_time }
{
    instrument.has_refund() || (actual == 0 && real_time == 0)
}

impl FromRow for Holding {
    type Row = HoldingRow;

    ghost plain = { plain_holding };

    ghost ok = { holding_ok };

    fn typed(row: &HoldingRow) -> Option<Holding> {
        let instrument = InstrumentKind::try_from(row.letter as char).ok()?;
        let block = Block::try_from(row.block as char).ok()?;
        if !quantity_ok(row.quantity) || row.actual > 800_000 {
            return None;
        }
        if row.real_time > 100_000 || !refund_figures_ok(instrument, row.actual, row.real_time) {
            return None;
        }
        Some(Holding {
            owner: row.owner,
            instrument,
            source: row.source,
            sink: row.sink,
            quantity: HeldQuantity {
                value: row.quantity,
            },
            block,
            actual: Quantity { value: row.actual },
            real_time: Quantity {
                value: row.real_time,
            },
        })
    }
}
