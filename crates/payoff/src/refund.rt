ghost use Rattle.std.specs.Prelude.{◌≡◌};
ghost use Rattle.rows.specs.Plain.{plain_holding};
ghost use Rattle.payoff.specs.Instruments.{refund, refund_quantity_of};
ghost use Rattle.payoff.specs.Laws.{refund_lawful};

use crate::figures::Figures;
use crate::instrument::Instrument;
use crate::payment::Payment;
use crate::tested::TestedTables;
use rows::Holding;
use units::{Price, Quantity};

/// An instrument with Refund.
#[derive(Clone, Copy)]
pub struct Refund<I>(pub I);

/// The quantity that Refund counts.
fn refund_quantity(holding: &Holding, quantity: Quantity, target: Price) -> Quantity
    ensures { result.value ≡ refund_quantity_of (plain_holding holding.now) quantity.value target.value }
{
    let q = quantity.value;
    if target.value <= 0 || q == 0 {
        return quantity;
    }
    // the output is shared by the Day-Ahead and the Real-Time quantity
    let both = q as u64 + holding.real_time.value as u64;
    let part = holding.actual.value as u64 * q as u64 / both;
    Quantity {
        value: part.min(q as u64) as u32,
    }
}

impl<I: Instrument> Instrument for Refund<I> {
    ghost means = { λ i t h. refund (I.Instrument.means i.0) t h };

    ghost rules = { λ i t h. refund_lawful (I.Instrument.means i.0) t h (I.Instrument.rules i.0 t h) };

    fn figures(&self, hour: &TestedTables, holding: &Holding) -> Option<Figures> {
        let pair = hour.pair(holding)?;
        if !pair.refundable() {
            return None;
        }
        let inner = self.0.figures(hour, holding)?;
        Some(Figures {
            quantity: refund_quantity(holding, inner.quantity, inner.target),
            target: inner.target,
            deration: inner.deration,
            floor: inner.floor,
        })
    }

    fn payment(&self, hour: &TestedTables, holding: &Holding) -> Option<Payment> {
        let pair = hour.pair(holding)?;
        if !pair.refundable() {
            return None;
        }
        let inner = self.0.payment(hour, holding)?;
        Some(Payment {
            quantity: refund_quantity(holding, inner.quantity, inner.target),
            target: inner.target,
            price: inner.price,
        })
    }
}
