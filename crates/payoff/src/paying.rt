ghost use Rattle.std.specs.Prelude.{◌≡◌, pos, ◌-ℤ◌, ◌≤ℤ◌};
ghost use Rattle.std.specs.Int.{int_max};
ghost use Rattle.payoff.specs.Payments.{rate_of};
ghost use Rattle.payoff.specs.View.{payoff_of, plain_payment};

use crate::figures::Figures;
use crate::payment::Payment;
use units::Price;

/// What is paid for each MWh: the target price less the deration price, but no less than the floor price.
pub(crate) fn payment_price(target: Price, deration: Price, floor: Price) -> Price
    requires under { floor.value ≤ℤ target.value }
    requires deration { pos 0 ≤ℤ deration.value }
    ensures { result.value ≡ int_max (target.value -ℤ deration.value) floor.value }
{
    let derated = target.value - deration.value;
    Price {
        value: derated.max(floor.value),
    }
}

impl Figures {
    /// What the four figures are paid by.
    pub fn payment(&self) -> Payment
        ensures { plain_payment result ≡ rate_of (payoff_of self.now) }
    {
        Payment {
            quantity: self.quantity,
            target: self.target,
            price: payment_price(self.target, self.deration, self.floor),
        }
    }
}
