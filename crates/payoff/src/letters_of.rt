ghost use Rattle.std.specs.Prelude.{◌≡◌};
ghost use Rattle.payoff.specs.Letters.{has_kind, no_letters, with_kind};

use crate::letters::LetterSet;
use rows::InstrumentKind;

impl LetterSet {
    /// The set with no letter.
    pub fn none() -> LetterSet
        ensures { result ≡ no_letters }
    {
        LetterSet {
            obligation: false,
            option: false,
            obligation_with_refund: false,
            option_with_refund: false,
        }
    }

    /// The set with one letter more.
    pub fn with(mut self, kind: InstrumentKind) -> LetterSet
        ensures { result ≡ with_kind self kind }
    {
        match kind {
            InstrumentKind::Obligation => self.obligation = true,
            InstrumentKind::PtpOption => self.option = true,
            InstrumentKind::ObligationWithRefund => self.obligation_with_refund = true,
            InstrumentKind::OptionWithRefund => self.option_with_refund = true,
        }
        self
    }

    /// Whether the set has an instrument's letter.
    pub fn has(&self, kind: InstrumentKind) -> bool
        ensures { result ≡ has_kind self.now kind }
    {
        match kind {
            InstrumentKind::Obligation => self.obligation,
            InstrumentKind::PtpOption => self.option,
            InstrumentKind::ObligationWithRefund => self.obligation_with_refund,
            InstrumentKind::OptionWithRefund => self.option_with_refund,
        }
    }
}
