ghost use Rattle.std.specs.Prelude.{◌≡◌};

use refusals::Refusal;

/// The month that a refused call hands back, as it was, and why it was refused.
#[derive(Drop)]
pub struct HandedBack<M> {
    pub month: M,
    pub refusal: Refusal,
}

/// A caller that has no more use for the month hands on the refusal alone.
impl<M: Drop> From<HandedBack<M>> for Refusal {
    ghost from_gives = { λ back e. e ≡ back.refusal };

    fn from(back: HandedBack<M>) -> Refusal {
        back.refusal
    }
}
