ghost use Rattle.std.specs.Prelude.{◌≡◌};
ghost use Rattle.rows.specs.declared.letters.InstrumentKind.TheVariants.{Obligation as B, PtpOption as O, ObligationWithRefund as Br, OptionWithRefund as Or};
ghost use Rattle.payoff.specs.Letters.{no_letters, with_kind};

use crate::choice::Choice;
use crate::letters::LetterSet;
use crate::plain::{Obligation, PtpOption};
use crate::refund::Refund;
use rows::InstrumentKind;

/// Each letter under its own instrument: B and O plain, b and o with Refund.
pub type StandardInstrument = Choice<
    Choice<Obligation, PtpOption>,
    Choice<Refund<Obligation>, Refund<PtpOption>>,
>;

/// The instrument that serves every letter, each by its own rule.
pub fn standard_instrument() -> StandardInstrument
    ensures plain { result.first_letters ≡ with_kind (with_kind no_letters B) O }
    ensures refund { result.second_letters ≡ with_kind (with_kind no_letters Br) Or }
    ensures obligation { result.first.first_letters ≡ with_kind no_letters B }
    ensures option { result.first.second_letters ≡ with_kind no_letters O }
    ensures obligation_refund { result.second.first_letters ≡ with_kind no_letters Br }
    ensures option_refund { result.second.second_letters ≡ with_kind no_letters Or }
{
    let obligation = LetterSet::none().with(InstrumentKind::Obligation);
    let obligation_refund = LetterSet::none().with(InstrumentKind::ObligationWithRefund);
    let option = LetterSet::none().with(InstrumentKind::PtpOption);
    let option_refund = LetterSet::none().with(InstrumentKind::OptionWithRefund);
    Choice {
        first: Choice {
            first: Obligation,
            first_letters: obligation,
            second: PtpOption,
            second_letters: option,
        },
        first_letters: obligation.with(InstrumentKind::PtpOption),
        second: Choice {
            first: Refund(Obligation),
            first_letters: obligation_refund,
            second: Refund(PtpOption),
            second_letters: option_refund,
        },
        second_letters: obligation_refund.with(InstrumentKind::OptionWithRefund),
    }
}
